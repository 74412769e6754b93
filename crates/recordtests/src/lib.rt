// Tests that run: order records read, shown and written, good and damaged.
//
// For: the gate. Promises: nothing; each test is proved safe, and then run. Rests on: orderfile.
#![tactic(auto)]

#[cfg(test)]
mod reading;
#[cfg(test)]
mod records;
#[cfg(test)]
mod writing;
