//! Peers, identified by their IP address.
ghost use Rattle.std.specs.Prelude.{◌≡◌, ◌+◌};
ghost use Rattle.std.specs.Net.Addr.{MatchIp, ipv4_bits, ipv6_bits};
ghost use Rattle.admitting.specs.Peers.{peer_of_bits};

use std::net::IpAddr;

/// The first of the IPv6 addresses that IPv4 addresses are mapped to, `::ffff:0.0.0.0`, as a
/// number.
const MAPPED: u128 = 0xffff_0000_0000;

/// How many addresses IPv4 has.
const IPV4: u128 = 0x1_0000_0000;

/// How many addresses an IPv6 network with a prefix of 64 bits has.
const NETWORK: u128 = 0x1_0000_0000_0000_0000;

/// Returns the number by which the connections of one peer are counted together. An IPv4 address
/// has that of the IPv6 address to which it is mapped (RFC 4291 section 2.5.5.2), so that a peer
/// has the same number on a socket of either kind. Any other IPv6 address has that of the first
/// address of its 64-bit network, since a machine may use every address of that network.
pub fn peer_number(address: IpAddr) -> u128
    ensures { MatchIp address (λ a. result ≡ 281470681743360 + ipv4_bits a) (λ a. result ≡ peer_of_bits (ipv6_bits a)) }
{
    match address {
        IpAddr::V4(address) => MAPPED + u128::from(address.to_bits()),
        IpAddr::V6(address) => {
            let bits = address.to_bits();
            if bits / IPV4 == MAPPED / IPV4 {
                bits
            } else {
                bits - bits % NETWORK
            }
        }
    }
}
