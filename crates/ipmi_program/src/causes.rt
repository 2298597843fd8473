//! Why an image is faulty, in the words of `serdimko`.
ghost use Rattle.std.specs.Prelude.{◌≡◌};
ghost use Rattle.ipmi_program.specs.Causes.{beginning_words, cause_words, line_words, rule_words};

use ipmi_image::{Beginning, FaultCause, LineCause, RuleCause};

/// What bytes are that are no image.
fn beginning_words(cause: Beginning) -> &'static str
    ensures { result.now ≡ beginning_words cause }
{
    match cause {
        Beginning::Empty =>
            " (it is empty: make an image with 'serdimko-live ... -- capture', and read it with --image FILE)",
        Beginning::Compressed => " (compressed: unpack it first)",
        Beginning::ByteOrderMark => " (begins with a byte order mark: save it without)",
        Beginning::WideText => " (is UTF-16 or UTF-32: save it as UTF-8)",
        Beginning::CrLfText => " (line ends are CR LF: use LF alone)",
        Beginning::CrText => " (line ends are CR: use LF alone)",
        Beginning::RawRecords =>
            " (raw bytes of records: an image has them in hex, on lines sdr or sel; 'serdimko-live ... -- capture' makes one)",
        Beginning::RawInventory =>
            " (raw bytes of an inventory: an image has them in hex, on a line 'fru 00 HEX')",
        Beginning::Header =>
            " (not an image: the first line has to be 'ipmi-image 1', 'ipmi-image 2' or 'ipmi-image 3', with a line feed and no space after it; 'serdimko-live ... -- capture' makes an image)",
    }
}

/// Why a line is invalid.
fn line_words(cause: LineCause) -> &'static str
    ensures { result.now ≡ line_words cause }
{
    match cause {
        LineCause::CrLf => " (it ends with CR LF: use LF alone)",
        LineCause::Tab =>
            " (it has a tab: between two fields one space, none at the start or the end)",
        LineCause::EmptyLine => " (it is empty: remove the line)",
        LineCause::LeadingSpace =>
            " (it begins with a space: remove the space, or the line if that is all it has)",
        LineCause::EmptyField =>
            " (a field is empty: between two fields one space, and none at the end)",
        LineCause::FirstWord =>
            " (it has to begin with sdr, sel, fru, reading, info or end, in lower case)",
        LineCause::RowFields => " (sdr and sel take three fields: ID NEXT HEX)",
        LineCause::Dash => " (NEXT is a dash: the first line has to be 'ipmi-image 2')",
        LineCause::RowNumbers =>
            " (ID and NEXT are four hex digits each, as 002a; in 'ipmi-image 2' NEXT may be a dash)",
        LineCause::InventoryFields => " (fru takes two fields: ID HEX)",
        LineCause::InventoryNumber => " (the ID of fru is two hex digits, 00 to fe, as 0a)",
        LineCause::ReadingFields => " (reading takes three fields: LUN NUM HEX)",
        LineCause::ReadingNumbers => " (LUN is one digit, 0 to 3, and NUM two hex digits, as 0 2a)",
        LineCause::InfoFields => " (info takes sdr HEX or sel HEX)",
        LineCause::EndFields => " (end stands alone, with no space after it)",
        LineCause::Lack =>
            " (lacks comes before all other lines, and takes sdr ID CODE, sel ID CODE, info sdr CODE, info sel CODE, reading LUN NUM CODE, size ID CODE or fru ID CODE)",
        LineCause::OddDigits => " (an odd number of digits: each byte has two)",
        LineCause::NotHex => " (a field has a character that is not a hex digit)",
    }
}

/// The rule that a line, or the end of the image, breaks.
fn rule_words(cause: RuleCause) -> &'static str
    ensures { result.now ≡ rule_words cause }
{
    match cause {
        RuleCause::LastId => " (a record id can't be FFFF)",
        RuleCause::ZeroId => " (only the first record may have the id 0000)",
        RuleCause::DeviceId => " (a FRU device id can't be FF)",
        RuleCause::Lun => " (a LUN is 0 to 3)",
        RuleCause::RecordTwice => " (an earlier line has this record id)",
        RuleCause::ReadingTwice => " (an earlier line has this LUN and NUM)",
        RuleCause::InfoTwice => " (one info each for sdr and sel)",
        RuleCause::SdrLen =>
            " (sdr takes 5 bytes and as many more as the fifth says, at most 256 in all)",
        RuleCause::SelLen => " (sel takes 16 bytes)",
        RuleCause::ReadingLen => " (reading takes 4 bytes)",
        RuleCause::InfoLen => " (info takes 14 bytes)",
        RuleCause::FirstId =>
            " (the first record's bytes have to begin with the ID of its line, low byte first: ID 12ab as ab12)",
        RuleCause::TooManyBytes => " (with this line the inventory has more than 65,535)",
        RuleCause::AfterEnd => " (the line 'end' has to be the last)",
        RuleCause::CutEnd => " (after 'end' a line feed is missing)",
        RuleCause::CutLine => " (it is cut off: its last line has no line feed)",
        RuleCause::NoEnd => " (its last line is not 'end': it may be cut off)",
    }
}

/// The cause in brackets, after a space, as `serdimko` says it; nothing if it is not known.
pub fn cause_words(cause: Option<FaultCause>) -> &'static str
    ensures { result.now ≡ cause_words cause }
{
    match cause {
        Some(FaultCause::Beginning(cause)) => beginning_words(cause),
        Some(FaultCause::Line(cause)) => line_words(cause),
        Some(FaultCause::Rule(cause)) => rule_words(cause),
        None => "",
    }
}
