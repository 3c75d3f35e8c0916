// A journal carried out whole, cut at every byte and damaged at every byte, against a second implementation.
#![tactic(auto)]

#[cfg(test)]
mod journals;
#[cfg(test)]
mod table;
