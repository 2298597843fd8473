//! The digits of a number.
ghost use Rattle.json.specs.Print.{IsNumber};

/// The digits of a number, as RFC 8259 has them. They are lent.
#[derive(Clone, Copy)]
pub struct Number<'a> {
    /// The digits.
    pub digits: &'a str,
    ghost is_number: { IsNumber digits.now },
}
