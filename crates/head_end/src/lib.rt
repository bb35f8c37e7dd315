// The head end's addresses (document 02, C-15): a lent list, 16 octets to an address, one behind the other.
//
// A list that isn't a multiple of 16 octets: 28.
#![tactic(auto)]

ghost use Rattle.std.specs.Prelude.{◌≡◌};
ghost use Rattle.head_end.specs.Addresses.{usable_list, has_address};

// The octets of an address.
pub const ADDRESS_SIZE: usize = 16;

// Whether the list is made of whole addresses.
pub fn usable(addresses: &[u8]) -> bool
    ensures usable { result ≡ usable_list addresses.now }
{
    addresses.len() % ADDRESS_SIZE == 0
}

// Whether one of the addresses is x.
pub fn has(addresses: &[u8], x: &[u8]) -> bool
    ensures found { result ≡ has_address addresses.now x.now }
{
    addresses.chunks_exact(ADDRESS_SIZE).any(|a| a == x)
}
