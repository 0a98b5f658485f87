//! Laws of message cycles: what replies mean, what the tables represent, and that a request is executed once.

ghost use Rattle.std.specs.Prelude.{◌≡◌, ℕ, ◌+◌, ◌≤◌, List, [], ◌∷◌, ◌++◌, Some, None, Option, replicate, IsTrue, IsFalse, All, reverse};
ghost use Rattle.pb_cycles.specs.Fields.{Fields};
ghost use Rattle.pb_cycles.specs.RequestFields.{RequestFields};
ghost use Rattle.pb_cycles.specs.Messages.{has_bit, heard_as};
ghost use Rattle.pb_cycles.specs.Requests.{is_answered, IsAddressed};
ghost use Rattle.pb_cycles.specs.declared.messages.Message.{Message};
ghost use Rattle.pb_cycles.specs.declared.services.Priority.{Priority};
ghost use Rattle.pb_cycles.specs.declared.services.Service.{Service};
ghost use Rattle.pb_cycles.specs.declared.services.Service.TheVariants.{Sda, Srd};
ghost use Rattle.pb_cycles.specs.Acts.{Act, Resent, Closed, sending_act, number_to, kth_bits, open_in, InitiatorStandsFor};
ghost use Rattle.pb_cycles.specs.Calls.{Heard, ResponderStandsFor};
ghost use Rattle.pb_cycles.specs.Initiating.{bits_for, first_sending, after_request, retry_of, after_retry, outcome_of, after_outcome};
ghost use Rattle.pb_cycles.specs.Link.{Link, Fate, Cycle, IsCallTo, ExecutesOnce, cycles};
ghost use Rattle.pb_cycles.specs.Outcomes.{code_outcome, reply_outcome};
ghost use Rattle.pb_cycles.specs.Responding.{after_message, service_reply};
ghost use Rattle.pb_cycles.specs.Tables.{InitiatorTable, ResponderTable};
ghost use Rattle.pb_telegram.specs.declared.control.FrameCount.TheVariants.{First};
ghost use Rattle.pb_cycles.specs.declared.initiators.OpenRequest.{OpenRequest};
ghost use Rattle.pb_cycles.specs.declared.outcomes.Outcome.{Outcome};
ghost use Rattle.pb_cycles.specs.declared.outcomes.Outcome.TheVariants.{Acked, Data, NoResource};

/// The meaning of each function code of a reply: OK and NR acknowledge; UE, RR and RS have no resource; DL, DH, RDL and
/// RDH bring the data of the reply; no other code is known.
pub fn what_reply_codes_mean()
    ensures acked { (unit : List ℕ)
        → (code_outcome 0 unit ≡ Some Acked) × (code_outcome 9 unit ≡ Some Acked) }
    ensures no_resource { (unit : List ℕ)
        → (code_outcome 1 unit ≡ Some NoResource) × (code_outcome 2 unit ≡ Some NoResource)
        × (code_outcome 3 unit ≡ Some NoResource) }
    ensures data_back { (unit : List ℕ)
        → (code_outcome 8 unit ≡ Some (Data (record { items = unit })))
        × (code_outcome 10 unit ≡ Some (Data (record { items = unit })))
        × (code_outcome 12 unit ≡ Some (Data (record { items = unit })))
        × (code_outcome 13 unit ≡ Some (Data (record { items = unit }))) }
    ensures unknown { (unit : List ℕ)
        → (code_outcome 4 unit ≡ None) × (code_outcome 5 unit ≡ None) × (code_outcome 6 unit ≡ None)
        × (code_outcome 7 unit ≡ None) × (code_outcome 11 unit ≡ None) × (code_outcome 14 unit ≡ None)
        × (code_outcome 15 unit ≡ None) }
    ensures above { (code : ℕ) (unit : List ℕ) → 16 ≤ code → code_outcome code unit ≡ None }
{}

/// The reply of the responder `d` to an SDA or SRD of the initiator `ts` means there what it means here: an SDA is
/// acknowledged; an SRD gets the reply data, or an acknowledgement if there is none; a request with an address
/// extension gets no resource.
pub fn a_reply_means_what_was_meant()
    ensures extension { (ts d station_type : ℕ) (f : Fields) (service : Service) (priority : Priority)
        (unit : List ℕ) → ts ≤ 126 → d ≤ 126 → station_type ≤ 3 → f.sa ≡ ts
        → IsTrue (is_answered service) → IsTrue (has_bit f.da 7)
        → reply_outcome ts d (heard_as (service_reply d station_type f service priority unit))
        ≡ Some NoResource }
    ensures sda { (ts d station_type : ℕ) (f : Fields) (priority : Priority) (unit : List ℕ)
        → IsFalse (has_bit f.da 7)
        → reply_outcome ts d (heard_as (service_reply d station_type f Sda priority unit)) ≡ Some Acked }
    ensures srd { (ts d station_type : ℕ) (f : Fields) (priority : Priority) (x : ℕ) (unit : List ℕ)
        → ts ≤ 126 → d ≤ 126 → station_type ≤ 3 → f.sa ≡ ts
        → IsFalse (has_bit f.da 7)
        → reply_outcome ts d (heard_as (service_reply d station_type f Srd priority (x ∷ unit)))
        ≡ Some (Data (record { items = x ∷ unit })) }
    ensures srd_without_data { (ts d station_type : ℕ) (f : Fields) (priority : Priority) → ts ≤ 126 → d ≤ 126
        → station_type ≤ 3 → f.sa ≡ ts
        → IsFalse (has_bit f.da 7)
        → reply_outcome ts d (heard_as (service_reply d station_type f Srd priority [])) ≡ Some Acked }
{}

/// An initiator's table represents the list of its acts: a new table represents the empty list, and each call appends
/// its act to the list that the table represents. The k-th SDA or SRD to an address, since the start or since the last
/// outcome `NoAnswer` there, thus has the k-th frame count bits, and a retry is the telegram that opened the cycle.
pub fn an_initiator_stands_for_its_acts()
    ensures fresh { (retries : ℕ)
        → InitiatorStandsFor (record { retries = retries; counts = replicate 127 First; pending = None }) [] }
    ensures bits { (t : InitiatorTable) (acts : List Act) (r : RequestFields) → InitiatorStandsFor t acts
        → IsAddressed r.da r.service
        → IsTrue (is_answered r.service) → bits_for t r ≡ kth_bits (number_to r.da acts + 1) }
    ensures request { (t : InitiatorTable) (acts : List Act) (ts : ℕ) (r : RequestFields)
        → InitiatorStandsFor t acts → IsAddressed r.da r.service
        → InitiatorStandsFor (after_request t ts r) (acts ++ sending_act r (first_sending t ts r) ∷ []) }
    ensures same_octets { (t : InitiatorTable) (acts : List Act) (f : Fields) → InitiatorStandsFor t acts
        → retry_of t.pending ≡ Some f
        → open_in (reverse acts) ≡ Some f }
    ensures retry { (t : InitiatorTable) (acts : List Act) (f : Fields) → InitiatorStandsFor t acts
        → retry_of t.pending ≡ Some f
        → InitiatorStandsFor (after_retry t) (acts ++ Resent f ∷ []) }
    ensures outcome { (t : InitiatorTable) (acts : List Act) (o : OpenRequest) (reply : Option Message)
        (outcome : Outcome)
        → InitiatorStandsFor t acts → t.pending ≡ Some o → o.sent.da ≤ 126 → outcome_of t reply ≡ Some outcome
        → InitiatorStandsFor (after_outcome t reply) (acts ++ Closed o.sent.da outcome ∷ []) }
    ensures no_outcome { (t : InitiatorTable) (reply : Option Message) → outcome_of t reply ≡ None
        → after_outcome t reply ≡ t }
{}

/// A responder's table represents the list of messages that the station `ts` heard: a new table represents the empty
/// list, and each message is appended to the list that the table represents. The responder has thus executed each SDA,
/// SRD and SDN that is no repeat, and keeps the last SDA or SRD with its reply.
pub fn a_responder_stands_for_what_it_heard()
    ensures fresh { (ts : ℕ) (reply : List ℕ)
        → ResponderStandsFor ts (record { reply = reply; kept = None; executed = 0 }) [] }
    ensures message { (ts station_type : ℕ) (t : ResponderTable) (heard : List Heard) (m : Message)
        → ResponderStandsFor ts t heard
        → ResponderStandsFor ts (after_message t ts station_type m) (heard
        ++ record { station_type = station_type; message = m } ∷ []) }
{}

/// Over a link between one initiator and one responder that loses requests and replies, with each cycle ended by an
/// outcome before the next begins: a request with a valid frame count bit is executed at most once, however often it is
/// sent, and exactly once if it was answered; a first request is executed once for each sending that arrives; and all
/// sendings of a request get the same reply.
///
/// The initiator has sent nothing before; what the responder has heard before does not matter.
pub fn a_request_is_executed_once()
    ensures { (l : Link) (retries : ℕ) (t : ResponderTable) (requests : List (RequestFields × List Fate))
        → l.d ≤ 126
        → All (λ x. IsCallTo l x.0) requests
        → All ExecutesOnce (cycles l (record {
          retries = retries;
          counts = replicate 127 First;
          pending = None;
        }) t requests) }
{}
