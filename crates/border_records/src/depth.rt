// v and m are each a flag and a number. Without the flag there is none, whatever the number is.
ghost use Rattle.std.specs.Prelude.{◌≡◌};
ghost use Rattle.border_records.specs.Records.{depth_from, there_of, value_of};

pub fn depth_in(there: u8, value: u8) -> Option<u8>
    ensures depth { result ≡ depth_from there value }
{
    if there == 0 { None } else { Some(value) }
}

// Whether there is a value.
pub fn there(d: Option<u8>) -> u8
    ensures there { result ≡ there_of d }
{
    u8::from(d.is_some())
}

// The value, 0 where there is none.
pub fn value(d: Option<u8>) -> u8
    ensures value { result ≡ value_of d }
{
    d.unwrap_or(0)
}
