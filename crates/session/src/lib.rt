// What both ends of a session can do (document 01, "The OPEN object").
//
// A session is made of the PCC's and the PCE's OPEN answers, one for each form (document 02, C-16). A form is agreed if both
// carry it. N and the limit are the PCC's. A refused OPEN carries no form; without the form, N is 0 and there is no limit.
// A and R are agreed if SRv6 is and both ends set them; H.Encaps' v and Segments Left's m are the PCC's (document 02, C-15).
#![tactic(auto)]

ghost use Rattle.std.specs.Prelude.{◌≡◌};
ghost use Rattle.session.specs.Opened.{Opened};
ghost use Rattle.session.specs.Sessions.{sessions_of, session_under};
ghost use Rattle.session.specs.Answered.{carried_in};
ghost use Rattle.session.specs.Parts.{srv6_between, mpls_between};

mod at_fault;
mod opened;

pub use at_fault::{AtFault, NO_FORM};
use objects::MPLS_SETUP;
pub use opened::{Carried, MplsHalf, NO_MPLS, NO_SRV6, OpenRefusal, Srv6Half};

// The session of a form: agreed or not, the PCC's N and limit; A and R agreed or not, the PCC's v and m. Of MPLS the last four are not there.
#[derive(Clone, Copy)]
pub struct Session {
    pub agreed: bool,
    pub n: bool,
    pub limit: Option<usize>,
    pub a: bool,
    pub r: bool,
    pub v: Option<u8>,
    pub m: Option<u8>,
}

// The sessions of the two forms.
#[derive(Clone, Copy)]
pub struct Sessions {
    pub srv6: Session,
    pub mpls: Session,
}

// The session of a form that is not agreed.
const APART: Session = Session {
    agreed: false,
    n: false,
    limit: None,
    a: false,
    r: false,
    v: None,
    m: None,
};

// SRv6's session of what the PCC and the PCE carry of it. One function for both forms would be no plainer: of SRv6 six fields are settled, of MPLS two.
fn agree_srv6(pcc: Option<Srv6Half>, pce: Option<Srv6Half>) -> Session
    ensures session { result ≡ srv6_between pcc pce }
{
    let (Some(pcc), Some(pce)) = (pcc, pce) else {
        return APART;
    };
    Session {
        agreed: true,
        n: pcc.n,
        limit: pcc.limit,
        a: pcc.a && pce.a,
        r: pcc.r && pce.r,
        v: pcc.v,
        m: pcc.m,
    }
}

// MPLS's session of what they carry of it.
fn agree_mpls(pcc: Option<MplsHalf>, pce: Option<MplsHalf>) -> Session
    ensures session { result ≡ mpls_between pcc pce }
{
    let (Some(own), Some(_)) = (pcc, pce) else {
        return APART;
    };
    Session {
        agreed: true,
        n: own.n,
        limit: own.limit,
        ..APART
    }
}

// The sessions of what the PCC's and the PCE's OPENs carry; nothing of one that is refused.
pub fn agree(pcc: Option<Carried>, pce: Option<Carried>) -> Sessions
    ensures sessions { (o p : Opened) → pcc ≡ carried_in o → pce ≡ carried_in p → result ≡ sessions_of o p }
{
    let (Some(pcc), Some(pce)) = (pcc, pce) else {
        return Sessions {
            srv6: APART,
            mpls: APART,
        };
    };
    Sessions {
        srv6: agree_srv6(pcc.srv6, pce.srv6),
        mpls: agree_mpls(pcc.mpls, pce.mpls),
    }
}

// The session of the form that a setup type names, SRv6's if it names none.
#[tactic(auto, unfolding(crate::specs::Sessions::session_under))]
pub fn under(sessions: Sessions, pst: u64) -> Session
    ensures session { result ≡ session_under sessions pst }
{
    if pst == MPLS_SETUP {
        return sessions.mpls;
    }
    sessions.srv6
}
