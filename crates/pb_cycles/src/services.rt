//! The services, and the function codes that name them in a request.

ghost use Rattle.std.specs.Prelude.{◌≡◌, ◌<◌, Some, None};
ghost use Rattle.pb_cycles.specs.Requests.{is_answered, may_go_to, is_high, priority_of, code_of, asked_by};

/// A service of the data link layer (IEC 61158-4-3, data link service).
#[derive(Clone, Copy, Debug, Default, PartialEq, Eq)]
pub enum Service {
    /// Send data with acknowledge.
    #[default]
    Sda,
    /// Send data with no acknowledge.
    Sdn,
    /// Send and request data.
    Srd,
}

/// The priority of a request, and of the data in its reply (IEC 61158-4-3, data link service).
#[derive(Clone, Copy, Debug, Default, PartialEq, Eq)]
pub enum Priority {
    /// Low priority.
    #[default]
    Low,
    /// High priority.
    High,
}

/// What the function code of a request asks for.
#[derive(Clone, Copy, Debug, PartialEq, Eq)]
pub enum Asked {
    /// A service, with a priority.
    Send(Service, Priority),
    /// Request FDL Status.
    Status,
    /// Any other function code, which no station answers.
    Unknown,
}

impl Service {
    /// Whether the service is answered: by an acknowledgement or by data.
    pub fn is_answered(self) -> bool
        ensures { result ≡ is_answered self }
    {
        match self {
            Service::Sda | Service::Srd => true,
            Service::Sdn => false,
        }
    }

    /// Whether a request of the service may go to an address: 0 to 126 for any service, 127 (all stations) only if the
    /// service is not answered.
    pub fn may_go_to(self, address: u8) -> bool
        ensures { result ≡ may_go_to self address }
    {
        address < 127 || (address == 127 && !self.is_answered())
    }

    /// The function code of the service with a priority, 0 to 15.
    pub fn code(self, priority: Priority) -> u8
        ensures value { result ≡ code_of self priority }
        ensures bits { result < 16 }
    {
        match (self, priority) {
            (Service::Sda, Priority::Low) => 3,
            (Service::Sdn, Priority::Low) => 4,
            (Service::Sda, Priority::High) => 5,
            (Service::Sdn, Priority::High) => 6,
            (Service::Srd, Priority::Low) => 12,
            (Service::Srd, Priority::High) => 13,
        }
    }
}

impl Priority {
    /// High priority if `high`, else low priority.
    pub fn of(high: bool) -> Priority
        ensures { result ≡ priority_of high }
    {
        if high { Priority::High } else { Priority::Low }
    }

    /// Whether it is high priority.
    pub fn is_high(self) -> bool
        ensures { result ≡ is_high self }
    {
        match self {
            Priority::Low => false,
            Priority::High => true,
        }
    }
}

impl Asked {
    /// What a request with this function code asks for.
    pub fn by(code: u8) -> Asked
        ensures { result ≡ asked_by code }
    {
        match code {
            3 => Asked::Send(Service::Sda, Priority::Low),
            4 => Asked::Send(Service::Sdn, Priority::Low),
            5 => Asked::Send(Service::Sda, Priority::High),
            6 => Asked::Send(Service::Sdn, Priority::High),
            9 => Asked::Status,
            12 => Asked::Send(Service::Srd, Priority::Low),
            13 => Asked::Send(Service::Srd, Priority::High),
            _ => Asked::Unknown,
        }
    }
}
