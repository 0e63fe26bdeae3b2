//! The proved tables of the Executive, the Waitlist and the phases for C: each call works on an
//! array of 144 numbers that the caller owns, with the words of seven core sets or eight. What a
//! function computes that has a definition's name is said there.
#![tactic(auto)]

mod asking;
mod clock;
mod eras;
mod explaining;
mod fault;
mod images;
mod lacking;
mod lines;
mod numbers;
mod plans;
mod reading;
mod ready;
mod reply;
mod requests;
mod scene;
mod steps;
mod texts;
mod times;
mod timetable;
