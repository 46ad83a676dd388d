// Finding the host id of an address.
#![tactic(auto)]

ghost use Rattle.std.specs.Prelude.{◌≡◌, ◌≤◌, length};
ghost use Rattle.route.specs.Find.{
  class_a,
  above_c,
  same_net,
  host_octet,
  local_id,
  net_of,
  ends,
  search,
  rows_of,
  find,
  ids_below,
};

use wire::Address;

// A layout of host ids: ADDRESS-OFFSET and NHOSTS.
#[repr(C)]
#[derive(Clone, Copy)]
pub struct Layout {
    pub address_offset: u8,
    pub nhosts: usize,
}

// The three octets of a net.
#[repr(C)]
#[derive(Clone, Copy, PartialEq, Eq)]
pub struct Net {
    pub first: u8,
    pub second: u8,
    pub third: u8,
}

// A row of the net table: a net, and the id of the host that leads there.
#[repr(C)]
#[derive(Clone, Copy)]
pub struct Row {
    pub net: Net,
    pub host: u8,
}

// The net table: its first `count` rows. C programs lay out the count beside the rows.
#[repr(C)]
#[derive(Clone, Copy)]
pub struct NetRows {
    pub count: usize,
    pub rows: [Row; 32],
}

impl Net {
    // A row of this net matches all.
    pub const ZERO: Net = Net {
        first: 0,
        second: 0,
        third: 0,
    };
}

impl NetRows {
    // The rows in use, in order: no more than there are places.
    pub fn in_use(&self) -> &[Row]
        ensures { (result.now ≡ rows_of self.now) × (length result.now ≤ 32) }
    {
        &self.rows[..self.count.min(32)]
    }
}

// Class A: first octets 0 to 127.
fn class_a(address: Address) -> bool
    ensures { result ≡ class_a address }
{
    address.first < 128
}

// Classes above C: first octets 224 and more.
fn above_c(address: Address) -> bool
    ensures { result ≡ above_c address }
{
    address.first >= 224
}

// Is the address on the net of ours?
#[tactic(auto, unfolding(crate::specs::Find::same_net))]
pub fn same_net(ours: Address, address: Address) -> bool
    ensures { result ≡ same_net ours address }
{
    if ours.first != address.first || ours.second != address.second {
        return false;
    }
    if class_a(address) {
        return ours.fourth == address.fourth;
    }
    ours.third == address.third
}

// The octet that names the host.
fn host_octet(address: Address) -> u8
    ensures { result ≡ host_octet address }
{
    if class_a(address) {
        return address.third;
    }
    address.fourth
}

// The id of an address on our net.
#[tactic(auto, unfolding(crate::specs::Find::local_id))]
pub fn local_id(layout: Layout, address: Address) -> Option<usize>
    ensures { result ≡ local_id layout address }
{
    let octet = host_octet(address);
    if octet < layout.address_offset {
        return None;
    }
    let id = (octet - layout.address_offset) as usize;
    (id < layout.nhosts).then_some(id)
}

// The net that an address is looked up by.
fn net_of(address: Address) -> Net
    ensures { result ≡ net_of address }
{
    if class_a(address) {
        return Net {
            first: address.first,
            ..Net::ZERO
        };
    }
    Net {
        first: address.first,
        second: address.second,
        third: address.third,
    }
}

// Does the search for a net end at the row?
fn ends(asked: Net, row: Row) -> bool
    ensures { result ≡ ends asked row }
{
    row.net == asked || row.net == Net::ZERO
}

// The id of the first row at which the search for a net ends.
fn search(table: &NetRows, net: Net) -> Option<usize>
    ensures { result ≡ search net (rows_of table.now) }
{
    let row = table.in_use().iter().find(|row| ends(net, **row))?;
    Some(row.host as usize)
}

// The host id of an address, as a host of the address ours finds it.
#[tactic(auto, unfolding(crate::specs::Find::find))]
pub fn find(ours: Address, layout: Layout, table: &NetRows, address: Address) -> Option<usize>
    ensures { result ≡ find ours layout table.now address }
{
    if above_c(address) {
        return None;
    }
    if same_net(ours, address) {
        return local_id(layout, address);
    }
    search(table, net_of(address))
}

// Is the id of every row below n?
pub fn ids_below(table: &NetRows, n: usize) -> bool
    ensures { result ≡ ids_below n (rows_of table.now) }
{
    table.in_use().iter().all(|row| (row.host as usize) < n)
}
