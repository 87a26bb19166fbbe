//! How far the talk with a client is.

ghost use Rattle.std.specs.Prelude.{◌≡◌};
ghost use Rattle.serde_json.specs.View.{view};
ghost use Rattle.nx_protocol.specs.Talks.{begun, is_over, is_running, refusal_of, phase_behind_exit, talk_behind_done, talk_behind_notice, talk_behind_request};

use crate::method::{NoticeMethod, RequestMethod};
use crate::parameters::encoding_of;
use nx_position::position::Encoding;
use nx_wire::answer::Refusal;
use serde_json::Value;

/// How far the talk is.
#[derive(Clone, Copy, Debug, PartialEq, Eq)]
pub enum Phase {
    /// `initialize` hasn't come.
    Begun,
    /// Requests are done, and documents opened.
    Running,
    /// `shutdown` came: nothing is done but `exit`.
    Shut,
    /// `exit` came behind `shutdown`.
    Ended,
    /// `exit` came without it.
    BrokenOff,
}

/// A talk with a client.
#[derive(Clone, Copy, Debug, PartialEq, Eq)]
pub struct Talk {
    pub phase: Phase,
    /// What columns count. It is agreed upon by `initialize`.
    pub encoding: Encoding,
}

impl Phase {
    /// Whether `exit` came, so that no message is to come.
    pub fn is_over(self) -> bool
        ensures { result ≡ is_over self }
    {
        matches!(self, Phase::Ended | Phase::BrokenOff)
    }

    /// Whether documents are opened, changed and closed.
    pub fn is_running(self) -> bool
        ensures { result ≡ is_running self }
    {
        matches!(self, Phase::Running)
    }

    /// Why a request isn't done; none where it is.
    pub fn refusal_of(self, method: RequestMethod) -> Option<Refusal>
        ensures { result ≡ refusal_of self method }
    {
        match (self, method) {
            (Phase::Begun, RequestMethod::Initialize) => None,
            (Phase::Begun, _) => Some(Refusal::ServerNotInitialized),
            (Phase::Running, RequestMethod::Initialize) => Some(Refusal::InvalidRequest),
            (Phase::Running, RequestMethod::Shutdown) => None,
            (Phase::Running, RequestMethod::Other) => Some(Refusal::MethodNotFound),
            (Phase::Shut | Phase::Ended | Phase::BrokenOff, _) => Some(Refusal::InvalidRequest),
        }
    }

    fn behind_exit(self) -> Phase
        ensures { result ≡ phase_behind_exit self }
    {
        match self {
            Phase::Begun | Phase::Running | Phase::BrokenOff => Phase::BrokenOff,
            Phase::Shut | Phase::Ended => Phase::Ended,
        }
    }
}

impl Talk {
    /// A talk that hasn't begun. Until something else is agreed upon, columns count UTF-16's code units.
    pub fn new() -> Talk
        ensures { result ≡ begun }
    {
        Talk {
            phase: Phase::Begun,
            encoding: Encoding::Utf16,
        }
    }

    /// Where it is behind a request.
    pub fn behind_request(self, method: RequestMethod, message: &Value) -> Talk
        ensures { result ≡ talk_behind_request method self (view message.now) }
    {
        match self.phase.refusal_of(method) {
            Some(_) => self,
            None => self.behind_done(method, message),
        }
    }

    /// Where it is behind a request that is done.
    fn behind_done(self, method: RequestMethod, message: &Value) -> Talk
        ensures { result ≡ talk_behind_done method self (view message.now) }
    {
        match method {
            RequestMethod::Initialize => Talk {
                phase: Phase::Running,
                encoding: encoding_of(message),
            },
            RequestMethod::Shutdown => Talk {
                phase: Phase::Shut,
                encoding: self.encoding,
            },
            RequestMethod::Other => self,
        }
    }

    /// Where it is behind a notice.
    pub fn behind_notice(self, method: NoticeMethod) -> Talk
        ensures { result ≡ talk_behind_notice method self }
    {
        match method {
            NoticeMethod::Exit => Talk {
                phase: self.phase.behind_exit(),
                encoding: self.encoding,
            },
            _ => self,
        }
    }
}
