// The answer to an OPEN object: its number, what it carries of SRv6 and of MPLS, and the form at fault, which is below 256.
ghost use Rattle.std.specs.Prelude.{◌≡◌};
ghost use Rattle.session.specs.Answered.{carried_of, opened_of, both_halves, carried_in};
ghost use Rattle.border_opened.specs.Opens.{form_out, opened_in, opened_out};

use session::{Carried, MplsHalf, NO_MPLS, NO_SRV6, OpenRefusal, Srv6Half};

#[repr(C)]
#[derive(Clone, Copy)]
pub struct OpenedRecord {
    pub number: usize,
    pub srv6: u8,
    pub n: u8,
    pub limited: u8,
    pub limit: usize,
    pub a: u8,
    pub r: u8,
    pub hasv: u8,
    pub v: u8,
    pub hasm: u8,
    pub m: u8,
    pub mpls: u8,
    pub mplsn: u8,
    pub mplslimited: u8,
    pub form: u8,
    pub mplslimit: usize,
}

// The form, 0 for a number that is no octet.
fn form_out(form: usize) -> u8
    ensures form { result ≡ form_out form }
{
    if form < 256 {
        return form as u8;
    }
    0
}

// What is carried of SRv6 and of MPLS by a record that came in, whatever its number is.
fn srv6_in(o: OpenedRecord) -> Option<Srv6Half>
    ensures half { result ≡ (both_halves (opened_in o)).srv6 }
{
    if o.srv6 == 0 {
        return None;
    }
    Some(Srv6Half {
        n: o.n != 0,
        limit: border_records::limit_in(o.limited, o.limit),
        a: o.a != 0,
        r: o.r != 0,
        v: border_records::depth_in(o.hasv, o.v),
        m: border_records::depth_in(o.hasm, o.m),
    })
}

fn mpls_in(o: OpenedRecord) -> Option<MplsHalf>
    ensures half { result ≡ (both_halves (opened_in o)).mpls }
{
    if o.mpls == 0 {
        return None;
    }
    Some(MplsHalf {
        n: o.mplsn != 0,
        limit: border_records::limit_in(o.mplslimited, o.mplslimit),
    })
}

// What the record of an answer carries: nothing where its number, which may be any, is not 0.
pub fn carried_in(o: OpenedRecord) -> Option<Carried>
    ensures carried { result ≡ carried_in (opened_in o) }
{
    if o.number != 0 {
        return None;
    }
    Some(Carried {
        srv6: srv6_in(o),
        mpls: mpls_in(o),
    })
}

// An acceptance.
fn carried_out(carried: Carried) -> OpenedRecord
    ensures opened { result ≡ opened_out (carried_of carried) }
{
    let srv6 = carried.srv6.unwrap_or(NO_SRV6);
    let mpls = carried.mpls.unwrap_or(NO_MPLS);
    OpenedRecord {
        number: 0,
        srv6: u8::from(carried.srv6.is_some()),
        n: u8::from(srv6.n),
        limited: border_records::limited(srv6.limit),
        limit: border_records::most(srv6.limit),
        a: u8::from(srv6.a),
        r: u8::from(srv6.r),
        hasv: border_records::there(srv6.v),
        v: border_records::value(srv6.v),
        hasm: border_records::there(srv6.m),
        m: border_records::value(srv6.m),
        mpls: u8::from(carried.mpls.is_some()),
        mplsn: u8::from(mpls.n),
        mplslimited: border_records::limited(mpls.limit),
        form: 0,
        mplslimit: border_records::most(mpls.limit),
    }
}

pub fn opened_out(answer: Result<Carried, OpenRefusal>) -> OpenedRecord
    ensures opened { result ≡ opened_out (opened_of answer) }
{
    match answer {
        Ok(carried) => carried_out(carried),
        Err(refusal) => OpenedRecord {
            number: refusal.reason.number(),
            form: form_out(refusal.form_number()),
            ..carried_out(Carried {
                srv6: None,
                mpls: None,
            })
        },
    }
}
