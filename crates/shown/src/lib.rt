//! What the programs that show the shelf have in common: an answer as a number or as text, editions listed, the words of an
//! arena copied and compared, calls on a wrong header, and the entries and steps of the shelf table. A layer of the programs, on
//! `shelf`.

#![tactic(auto)]

pub mod answer;
pub mod damaged;
pub mod entries;
pub mod lent;
pub mod listed;
pub mod steps;
