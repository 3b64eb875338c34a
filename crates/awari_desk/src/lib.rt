//! Readers who look boards up in one book of levels, while its publisher adds levels on top.
//!
//! [`desk`] makes the publisher and its readers. A reader sees every level up to the last one that it
//! saw or was told of, and maybe more. To tell readers of what is published, pass them what
//! `Pages::tell` gives, for [`Reader::learn`]. [`Reader::ask`] and [`Reader::moves`] look a board up
//! and wait for nobody. [`serve`] answers the requests of a stream by a reader, or by another [`Oracle`].
//!
//! A publisher's next level, built and published, in `crates/awari_desk_tests/src/services.rt`:
//!
//!     pub(crate) fn publish_next<R: Wait + Drop>(
//!         alloc: Global,
//!         publisher: &mut Publisher<R>,
//!     ) -> Result<(), Fail> {
//!         let level = build_alone(alloc, publisher.book())?;
//!         let level = Arc::new(alloc, level)?;
//!         publisher.publish(level)?;
//!         Ok(())
//!     }
#![tactic(auto)]

mod answers;
mod books;
mod desks;
mod faults;
mod laws;
mod looks;
mod oracles;
mod pages;
mod publishers;
mod publishing;
mod readers;
mod requests;
mod services;

pub use answers::Answer;
pub use awari_members::{ANSWER_ROOM, AnswerText};
pub use awari_play::{Weighed, weigh};
pub use books::{Book, Growing};
pub use desks::{MOST_READERS, desk};
pub use faults::{AskFault, DeskFault, ProbeFault, ServeFault};
pub use laws::{services_have_limits, services_only_grow};
pub use oracles::Oracle;
pub use pages::Pages;
pub use publishers::Publisher;
pub use readers::{Reader, Told};
pub use requests::LONGEST_REQUEST;
pub use services::{LONGEST_INPUT, serve};
