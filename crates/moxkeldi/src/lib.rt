// The C boundary (include/moxkeldi.h): each public call of the library under its C name, in one crate, since a static library has the
// exports of one. Every promise is that of the call behind it.
#![tactic(auto)]

mod answers;
mod documents;
mod gates;
mod numbers;
mod places;
