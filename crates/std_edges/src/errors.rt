//! Errors of the machine: which of them pass.

ghost use Rattle.std.specs.Prelude.{◌≡◌, IfOk, IfErr};
ghost use Rattle.std.specs.IoError.{raw_os_error};
ghost use Rattle.std_edges.specs.Errors as spec;

use std::io;

// The errors that pass, by their numbers on Linux.
const EPERM: u32 = 1;

const EINTR: u32 = 4;

const EAGAIN: u32 = 11;

const ENOMEM: u32 = 12;

const EACCES: u32 = 13;

const ENETDOWN: u32 = 100;

const ENETUNREACH: u32 = 101;

const ENOBUFS: u32 = 105;

const ECONNREFUSED: u32 = 111;

const EHOSTDOWN: u32 = 112;

const EHOSTUNREACH: u32 = 113;

/// What became of a datagram that was to be sent.
#[derive(Clone, Copy, PartialEq, Eq)]
pub enum SendOutcome {
    /// All its bytes went.
    Sent,
    /// The machine refused it for a reason that passes: it is lost, as on the network.
    Lost,
    /// The socket or the address cannot be used.
    Failed,
}

/// Whether an error of the machine, by its number, says nothing of the socket and the address and may be gone at the
/// next call, as where a route is away for a moment, a buffer is full or a firewall refuses a datagram (profile).
pub fn is_passing(number: u32) -> bool
    ensures { result ≡ spec.is_passing number }
{
    let is_of_the_moment = matches!(number, EINTR | EAGAIN | ENOMEM | ENOBUFS);
    let is_of_a_rule = matches!(number, EPERM | EACCES | ECONNREFUSED);
    let is_of_a_route = matches!(number, ENETDOWN | ENETUNREACH | EHOSTDOWN | EHOSTUNREACH);
    is_of_the_moment || is_of_a_rule || is_of_a_route
}

/// Whether an error passes.
pub(crate) fn is_passing_error(error: &io::Error) -> bool
    ensures { result ≡ spec.is_passing (spec.number_in (raw_os_error error.now)) }
{
    match error.raw_os_error() {
        Some(code) => is_passing(code.unsigned_abs()),
        None => is_passing(0),
    }
}

/// What became of a datagram of so many bytes, by what the socket answered.
pub(crate) fn sent_as(sent: &io::Result<usize>, length: usize) -> SendOutcome
    ensures sent { IfOk sent.now (λ count. result ≡ spec.sent_of count length) }
    ensures refused { IfErr sent.now (λ error. result ≡ spec.refused_by (spec.number_in (raw_os_error error))) }
{
    match sent {
        Ok(count) if *count == length => SendOutcome::Sent,
        Ok(_) => SendOutcome::Failed,
        Err(error) if is_passing_error(error) => SendOutcome::Lost,
        Err(_) => SendOutcome::Failed,
    }
}
