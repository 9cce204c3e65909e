//! How strong the contracts of the shelf are: theorems about the public calls, each known by its contract alone.
//!
//! This is the top layer of the shelf and has no function of its own. Read specs/History.antt first: public calls in any
//! order, on any arguments. Then the theorems, under proofs/: every such arena is sound (HistoryLaws); the guard (GuardLaws);
//! what an update leaves to be seen (UpdateLaws, over specs/Follows.antt); what each call spends and when it refuses for room
//! (SpendLaws, RoomLaws, over specs/Spends.antt); that no two results meet a contract (OnceLaws, and AlikeLaws over
//! specs/Told.antt); what a program that only pretends would contradict (CheatLaws, over specs/Program.antt, and ProgramLaws);
//! and what holds on any words (AnyLaws).

#![tactic(auto)]
