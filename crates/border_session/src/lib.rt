// The sessions of the two forms: SRv6 agreed or not, the PCC's N; A and R agreed or not, the PCC's v, m and limit; then MPLS agreed or not,
// the PCC's N and limit. The 16 octets are handed on in two registers, so a limit has 16 bits: no route has as many segments.
#![tactic(auto)]

ghost use Rattle.std.specs.Prelude.{◌≡◌};
ghost use Rattle.session.specs.Sessions.{session_under};
ghost use Rattle.border_session.specs.Agreed.{srv6_in, mpls_in, sessions_in, sessions_out};
ghost use Rattle.border_session.specs.Parts.{flagged_of};

use session::{Session, Sessions};

#[repr(C)]
#[derive(Clone, Copy)]
pub struct SessionRecord {
    pub agreed: u8,
    pub n: u8,
    pub a: u8,
    pub r: u8,
    pub hasv: u8,
    pub v: u8,
    pub hasm: u8,
    pub m: u8,
    pub limited: u8,
    pub mpls: u8,
    pub mplsn: u8,
    pub mplslimited: u8,
    pub limit: u16,
    pub mplslimit: u16,
}

fn srv6_in(s: SessionRecord) -> Session
    ensures session { result ≡ srv6_in s }
{
    Session {
        agreed: s.agreed != 0,
        n: s.n != 0,
        limit: border_records::short_in(s.limited, s.limit),
        a: s.a != 0,
        r: s.r != 0,
        v: border_records::depth_in(s.hasv, s.v),
        m: border_records::depth_in(s.hasm, s.m),
    }
}

fn mpls_in(s: SessionRecord) -> Session
    ensures session { result ≡ mpls_in s }
{
    Session {
        agreed: s.mpls != 0,
        n: s.mplsn != 0,
        limit: border_records::short_in(s.mplslimited, s.mplslimit),
        a: false,
        r: false,
        v: None,
        m: None,
    }
}

pub fn sessions_in(s: SessionRecord) -> Sessions
    ensures sessions { result ≡ sessions_in s }
{
    Sessions {
        srv6: srv6_in(s),
        mpls: mpls_in(s),
    }
}

// The session of the form that a setup type names, SRv6's if it names none; the other is not looked at.
#[tactic(auto, unfolding(session::specs::Sessions::session_under))]
pub fn session_under(s: SessionRecord, pst: u64) -> Session
    ensures session { result ≡ session_under (sessions_in s) pst }
{
    if pst == objects::MPLS_SETUP {
        return mpls_in(s);
    }
    srv6_in(s)
}

// Whether A or R is agreed in that session. MPLS's has neither.
#[tactic(auto, unfolding(session::specs::Sessions::session_under))]
pub fn flagged(s: SessionRecord, pst: u64) -> bool
    ensures flagged { result ≡ flagged_of (session_under (sessions_in s) pst) }
{
    if pst == objects::MPLS_SETUP {
        return false;
    }
    s.a != 0 || s.r != 0
}

pub fn sessions_out(s: Sessions) -> SessionRecord
    ensures sessions { result ≡ sessions_out s }
{
    SessionRecord {
        agreed: u8::from(s.srv6.agreed),
        n: u8::from(s.srv6.n),
        a: u8::from(s.srv6.a),
        r: u8::from(s.srv6.r),
        hasv: border_records::there(s.srv6.v),
        v: border_records::value(s.srv6.v),
        hasm: border_records::there(s.srv6.m),
        m: border_records::value(s.srv6.m),
        limited: border_records::limited(s.srv6.limit),
        mpls: u8::from(s.mpls.agreed),
        mplsn: u8::from(s.mpls.n),
        mplslimited: border_records::limited(s.mpls.limit),
        limit: border_records::short(s.srv6.limit),
        mplslimit: border_records::short(s.mpls.limit),
    }
}
