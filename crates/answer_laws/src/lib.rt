//! Laws of runs, questions, reports and answers that the contracts of whole commands stand on. A law is a public function without a body to speak of: its
//! contract is the law.
#![tactic(auto)]

pub mod contracts;
pub mod fails;
pub mod invariants;
pub mod models;
pub mod pairs;
pub mod readings;
pub mod reports;
pub mod twice;
pub mod upgrades;
pub mod verify;
pub mod work;
