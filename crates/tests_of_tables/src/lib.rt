//! Tests of public calls: registrations and their record, built-in resolvers, the store of uploads, tables with their
//! clashes and merges, and the two sides of an exchange.
#![tactic(auto)]

#[cfg(test)]
mod agreements;
#[cfg(test)]
mod assertions;
#[cfg(test)]
mod exchange_rows;
#[cfg(test)]
mod exchanges;
#[cfg(test)]
mod limits;
#[cfg(test)]
mod merges;
#[cfg(test)]
mod programs_judge;
#[cfg(test)]
mod records;
#[cfg(test)]
mod resolvers;
#[cfg(test)]
mod tables;
#[cfg(test)]
mod two_sides;
#[cfg(test)]
mod uploads;
#[cfg(test)]
mod verdicts;
#[cfg(test)]
mod wordings;
