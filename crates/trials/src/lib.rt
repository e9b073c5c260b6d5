//! What the library does where a read, a write or an allocation fails. There are tests here and nothing else.
#![tactic(auto)]

#[cfg(test)]
mod fakes;
#[cfg(test)]
mod kept;
#[cfg(test)]
mod memory;
#[cfg(test)]
mod reads;
#[cfg(test)]
mod writes;
