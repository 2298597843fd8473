//! Images and their faults, both controllers, and rewritten images.
mod answers;
mod builders;
mod calls;
mod causes;
mod faults;
mod images;
mod lengths;
mod memory;
mod mood_order;
mod moods;
mod places;
mod rewritten;
mod snapshots;
mod tables;
mod with_records;
