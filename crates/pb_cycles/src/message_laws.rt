//! Laws of messages and queues.

ghost use Rattle.std.specs.Prelude.{◌≡◌, ◌≤◌, List, [], ◌++◌, length};
ghost use Rattle.pb_telegram.specs.Grammar.{spelling};
ghost use Rattle.pb_telegram.specs.declared.telegrams.Telegram.{Telegram};
ghost use Rattle.pb_cycles.specs.Fields.{Fields};
ghost use Rattle.pb_cycles.specs.Messages.{frame_octets, heard_as, message_in, message_of, reply_octets};
ghost use Rattle.pb_cycles.specs.Queued.{Use, accepted, taken, waiting};
ghost use Rattle.pb_cycles.specs.declared.messages.Message.TheVariants.{Framed};
ghost use Rattle.pb_cycles.specs.declared.messages.Reply.TheVariants.{Answer, Acknowledge};

/// The octets of a telegram have the meaning of the telegram. A request or reply is heard as it was sent.
pub fn octets_say_what_the_telegram_says()
    ensures telegram { (t : Telegram) → message_in (spelling t) ≡ message_of t }
    ensures frame { (f : Fields) → length f.unit ≤ 246 → message_in (frame_octets f) ≡ Framed f }
    ensures reply { (f : Fields) → length f.unit ≤ 246
        → message_in (reply_octets (Answer f)) ≡ heard_as (Answer f) }
    ensures acknowledgement { message_in (reply_octets Acknowledge) ≡ heard_as Acknowledge }
{}

/// A list of a queue is first in, first out: the accepted requests are the taken ones, in order, followed by those that
/// wait.
pub fn a_queue_is_first_in_first_out()
    ensures { (uses : List Use) → accepted [] uses ≡ taken [] uses ++ waiting [] uses }
{}
