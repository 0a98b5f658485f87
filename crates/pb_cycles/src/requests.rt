//! A request for a service, which a station sends when it holds the token.

ghost use Rattle.std.specs.Prelude.{◌≡◌, Some, None, IfOk, IfErr, OnOk};
ghost use Rattle.pb_faults.specs.FirstFault.{first_fault};
ghost use Rattle.pb_cycles.specs.Requests.{request_faults, priority_of};

use crate::services::{Priority, Service};
use arrayvec::ArrayVec;
use pb_telegram::{copy_octets, put_octets};
use std::marker::Model;
use thiserror::Error;

/// Why a request is refused.
#[derive(Clone, Copy, Debug, PartialEq, Eq, Error)]
pub enum RequestFault {
    /// 1: the address is over 127, or it is 127 (all stations) and the service is answered.
    #[error("BadAddress")]
    BadAddress,
}

/// A request to send data to a station, or to all stations (IEC 61158-4-3, data link service).
///
/// Its address is that of a station, 0 to 126, or 127 (all stations), for SDN only.
#[derive(Debug, PartialEq, Eq, Drop)]
pub struct Request {
    da: u8,
    service: Service,
    high: bool,
    unit: ArrayVec<u8, 246>,
}

impl Model for Request {
    ghost use Rattle.pb_cycles.specs.RequestFields.{RequestFields};

    ghost Value = { RequestFields };

    ghost use Rattle.pb_cycles.specs.Requests.{IsAddressed};

    ghost view = { λ r. record { da = r.da; service = r.service; high = r.high; unit = r.unit.items } };

    ghost invariant = { λ r. IsAddressed r.da r.service };

    ghost inverse = { λ r. record {
      da = r.da;
      service = r.service;
      high = r.high;
      unit = record { items = r.unit };
    } };
}

impl Default for Request {
    ghost use Rattle.std.specs.Prelude.{false, []};
    ghost use Rattle.pb_cycles.specs.declared.services.Service.TheVariants.{Sda};

    ghost is_default = { λ r. r ≡ record { da = 0; service = Sda; high = false; unit = [] } };

    /// The value of an unused entry of a queue: SDA to 0 without data.
    fn default() -> Request {
        Request {
            da: 0,
            service: Service::Sda,
            high: false,
            unit: ArrayVec::new(),
        }
    }
}

impl Request {
    ghost use Rattle.std.specs.Prelude.{◌≤◌, length};
    ghost use Rattle.pb_cycles.specs.RequestFields.{RequestFields};
    ghost use Rattle.pb_cycles.specs.Requests.{IsAddressed};

    /// A request to the address `da`, 0 to 127, with high priority if `high`, and with at most 246 octets of data.
    ///
    /// Fault: `BadAddress` (1) if `da` is over 127, or 127 with a service other than SDN.
    pub fn new(
        da: u8,
        service: Service,
        high: bool,
        unit: ArrayVec<u8, 246>,
    ) -> Result<Request, RequestFault>
        ensures value { IfOk result
            (λ r. r ≡ record { da = da; service = service; high = high; unit = unit.items }) }
        ensures addressed { OnOk result (first_fault (request_faults da service) ≡ None) }
        ensures fault { IfErr result (λ fault. first_fault (request_faults da service) ≡ Some fault) }
    {
        if !service.may_go_to(da) {
            return Err(RequestFault::BadAddress);
        }
        Ok(Request {
            da,
            service,
            high,
            unit,
        })
    }

    /// The address: 0 to 126 of a station, or 127 for all stations.
    pub fn da(&self) -> u8
        ensures value { result ≡ self.now.da }
        ensures addressed { IsAddressed self.now.da self.now.service }
    {
        self.da
    }

    /// The service.
    pub fn service(&self) -> Service
        ensures { result ≡ self.now.service }
    {
        self.service
    }

    /// Whether its priority is high.
    pub fn high(&self) -> bool
        ensures { result ≡ self.now.high }
    {
        self.high
    }

    /// Its priority.
    pub fn priority(&self) -> Priority
        ensures { result ≡ priority_of self.now.high }
    {
        Priority::of(self.high)
    }

    /// The data, at most 246 octets.
    pub fn unit(&self) -> &[u8]
        ensures value { result.now ≡ self.now.unit }
        ensures fits { length self.now.unit ≤ 246 }
    {
        &self.unit
    }

    /// An equal request.
    pub fn copy(&self) -> Request
        ensures { result ≡ self.now }
    {
        let Request {
            da,
            service,
            high,
            unit,
        } = self;
        Request {
            da: *da,
            service: *service,
            high: *high,
            unit: copy_octets(unit),
        }
    }

    /// Overwrites this request by another, in place.
    pub fn copy_from(&mut self, other: &Request)
        ensures { self.new ≡ other.now }
    {
        let Request {
            da,
            service,
            high,
            unit,
        } = self;
        *da = other.da;
        *service = other.service;
        *high = other.high;
        put_octets(unit, &other.unit);
    }

    /// Consumes the request and returns its data.
    pub fn into_unit(self) -> ArrayVec<u8, 246>
        ensures { result.items ≡ self.unit }
    {
        let Request { unit, .. } = self;
        unit
    }
}
