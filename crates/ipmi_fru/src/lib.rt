//! The inventory of a FRU device: its header, areas, fields and multirecords, and its text (Platform Management FRU
//! Information Storage Definition v1.0).
#![tactic(auto)]

mod area;
mod area_text;
mod fault;
mod field;
mod header;
pub mod laws;
mod line;
mod multirecord;
mod print;
mod record_text;

pub use area::{AreaFault, AreaKind, AreaView};
pub use fault::has_fault;
pub use field::{Field, Fields};
pub use header::{FruFault, FruView};
pub use line::{elsewhere_line, fru_line};
pub use multirecord::{MultiFault, MultiView, Records};
pub use print::{print_fru, push_fru};
pub use record_text::{DcFields, DcKind, RecordForm, access_text, form_of};
