// Journals carried out on engines, record by record.
#![tactic(auto)]

pub mod carrying;
pub mod plain;
pub mod playing;
pub mod records;
pub mod running;
pub mod writing;
