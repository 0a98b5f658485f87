//! Message cycles (data link services): what a telegram with a control octet says, requests that wait by priority, frame
//! count bits, retries, the meaning of replies, and what a responder answers.
#![tactic(auto)]

mod counts;
mod frames;
mod initiators;
mod laws;
mod message_laws;
mod messages;
mod outcomes;
mod queues;
mod requests;
mod responders;
mod services;

pub use frames::Frame;
pub use initiators::Initiator;
pub use laws::{
    a_reply_means_what_was_meant, a_request_is_executed_once, a_responder_stands_for_what_it_heard,
    an_initiator_stands_for_its_acts, what_reply_codes_mean,
};
pub use message_laws::{a_queue_is_first_in_first_out, octets_say_what_the_telegram_says};
pub use messages::{Message, Reply};
pub use outcomes::{Outcome, status_reply};
pub use queues::{Queue, QueueFull};
pub use requests::{Request, RequestFault};
pub use responders::Responder;
pub use services::{Asked, Priority, Service};
