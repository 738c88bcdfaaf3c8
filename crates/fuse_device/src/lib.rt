//! What the FUSE device of a directory of at most 16 files does: the definition of its step on a chain
//! of a virtio-fs queue, and the laws about it. The daemon carries the step out; a client stands on the
//! definition and needs nothing of the daemon.
//!
//! The records, opcodes and error numbers are those of Linux (uapi `fuse.h`, protocol 7.38). What a
//! request means, the limits, and the order in which a request is refused are this project's own.
//! Node 1 is the directory, and file i of the board has node i + 2.
//!
//! [`plan_chain`] takes the first seven steps, which look at the chain alone. The other functions are the
//! words of the definition, one each, for the daemon to ask.
//!
//! `specs/Steps.antt` states the step by its ordered refusals, `specs/Requests.antt` what each request
//! means, with its checks in `specs/Checks.antt` and what is told of nodes in `specs/Entries.antt`, over
//! the state of `specs/State.antt`. `specs/Promises.antt` has the forms of a daemon's contracts and what
//! they ask of the boards. `specs/DataSteps.antt` states the step of a daemon that stays as it is, for
//! the operations on bytes, sizes and mappings alone, `specs/Plans.antt` what the chain's own bytes and
//! room tell of it, and `specs/Acts.antt` what a chain does to the window.
//!
//! `proofs/Examples.antt` has whole chains whose answers are known. `proofs/Answering.antt` says that an
//! answer has room in its chain and is read as a reply to the request, `proofs/Servable.antt` that boards
//! which one caller has for itself can be served chain after chain, `proofs/Mapped.antt` that the window
//! maps made files and no others, `proofs/Acting.antt` that it shows what it showed and then what the
//! request does, and `proofs/DataLaws.antt` that what a daemon that stays carries out is
//! what the whole device does, and that it stays as it is.
//!
//! A client stands on `proofs/OpenHandles.antt`: what an INIT, a LOOKUP, an OPEN, and the READs and
//! WRITEs of an open file give, over any boards and in any spelling, and that no board refuses such a
//! read or write (`proofs/Allowed.antt`). `proofs/Receiving.antt` says that the bytes answered are then
//! read as that reply.
#![tactic(auto)]

mod answers;
mod laws;
mod listing;
mod plans;
mod refusals;
mod replies;
mod requests;
mod tables;
mod windows;

pub use answers::{
    attr_out_of, attr_with, bytes_reply, dir_attr, init_out, session_flags, size_in,
};
pub use laws::{plans_are_steps, sizes_are_allowed, steps_fit_and_add_acts};
pub use listing::{numbered_entries, pass_over};
pub use plans::{Plan, header_at, is_forget_chain, plan_chain};
pub use refusals::Refused;
pub use replies::{put_error, refusal, reserve_reply, with_room};
pub use requests::{
    has_flag, is_body_on_file, is_data, is_dots, is_forget, is_init, is_on_file, wanted_room,
};
pub use tables::{Kind, MadeFile, Opened, close_in, has_name, unlook};
pub use windows::{all_clear, all_whole, clear_all, clear_window, is_bad_setup, is_past, span_of};
