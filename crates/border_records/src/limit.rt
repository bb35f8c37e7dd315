// A limit is a flag and a number. Without the flag there is none, whatever the number is. In a session the number has 16 bits.
ghost use Rattle.std.specs.Prelude.{min, ◌≡◌};
ghost use Rattle.session.specs.Sessions.{most_of};
ghost use Rattle.border_records.specs.Records.{limit_in, limited_flag, limit_most, short_of};

pub fn limit_in(limited: u8, limit: usize) -> Option<usize>
    ensures limit { result ≡ limit_in limited limit }
{
    if limited == 0 { None } else { Some(limit) }
}

// Whether there is a limit.
pub fn limited(limit: Option<usize>) -> u8
    ensures limited { result ≡ limited_flag limit }
{
    u8::from(limit.is_some())
}

// The limit, 0 where there is none.
pub fn most(limit: Option<usize>) -> usize
    ensures most { result ≡ most_of limit }
{
    limit.unwrap_or(0)
}

// The largest limit that is handed out: the largest number of 16 bits.
const LIMIT_MOST: usize = octets::END16 - 1;

pub fn short_in(limited: u8, limit: u16) -> Option<usize>
    ensures limit { result ≡ limit_in limited limit }
{
    if limited == 0 {
        None
    } else {
        Some(usize::from(limit))
    }
}

fn cut(n: usize) -> u16
    ensures cut { result ≡ min n limit_most }
{
    if n < LIMIT_MOST {
        return n as u16;
    }
    LIMIT_MOST as u16
}

// The limit in 16 bits, 0 where there is none.
pub fn short(limit: Option<usize>) -> u16
    ensures short { result ≡ short_of limit }
{
    match limit {
        None => 0,
        Some(n) => cut(n),
    }
}
