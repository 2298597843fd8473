//! Laws of metrics. They follow from the definitions.
ghost use Rattle.ipmi_metrics.specs.Laws.{MetricsTextIsUnique, NamesAreDistinct};

/// No two families have the same name.
pub fn names_are_distinct()
    ensures { NamesAreDistinct }
{}

/// What was found has at most one text, so the result of `metrics_text` is the only one.
pub fn one_metrics_text()
    ensures { MetricsTextIsUnique }
{
    ipmi_text::laws::one_decimal_of_a_value();
}
