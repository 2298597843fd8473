//! Completion codes (IPMI v2.0, section 5.2, and 81h of sections 31.5 and 34.2), and what each means for a retrieval.

/// What a completion code means for a retrieval. The division into these five is this project's own.
#[derive(Clone, Copy, Debug, PartialEq, Eq)]
pub enum CodeClass {
    /// C5h: the reservation was cancelled. A trouble: a record that is read in parts is read from its start again.
    Cancelled,
    /// C0h (node busy), C3h (timeout), 81h (FRU device busy, or the event log being erased). A trouble: the same
    /// request may succeed later.
    Busy,
    /// C7h, C8h, CAh: too many bytes for one request.
    SmallerPart,
    /// CBh: the requested thing is not present.
    NotPresent,
    /// Every other code.
    Refusal,
}

/// The completion code of a failed request.
#[derive(Clone, Copy, Debug, PartialEq, Eq)]
pub struct Code(pub u8);

impl Code {
    ghost use Rattle.std.specs.Prelude.{◌≡◌};
    ghost use Rattle.ipmi_bus.specs.Code.{class_of};

    /// The FRU device is busy, or the event log is being erased.
    pub const DEVICE_BUSY: Code = Code(0x81);

    /// The node is busy.
    pub const NODE_BUSY: Code = Code(0xC0);

    /// The command took too long.
    pub const TIMEOUT: Code = Code(0xC3);

    /// The reservation was cancelled.
    pub const CANCELLED: Code = Code(0xC5);

    /// The length of the request is wrong.
    pub const WRONG_LENGTH: Code = Code(0xC7);

    /// The requested length exceeds the length of the field.
    pub const TOO_LONG: Code = Code(0xC8);

    /// A parameter is out of range: there is no byte at the offset.
    pub const OUT_OF_RANGE: Code = Code(0xC9);

    /// The controller cannot return this many bytes.
    pub const TOO_MANY_BYTES: Code = Code(0xCA);

    /// The requested thing is not present.
    pub const NOT_PRESENT: Code = Code(0xCB);

    /// What the code means for a retrieval.
    pub fn class(self) -> CodeClass
        ensures { result ≡ class_of self.0 }
    {
        match self {
            Code::CANCELLED => CodeClass::Cancelled,
            Code::NODE_BUSY | Code::TIMEOUT | Code::DEVICE_BUSY => CodeClass::Busy,
            Code::WRONG_LENGTH | Code::TOO_LONG | Code::TOO_MANY_BYTES => CodeClass::SmallerPart,
            Code::NOT_PRESENT => CodeClass::NotPresent,
            _ => CodeClass::Refusal,
        }
    }
}
