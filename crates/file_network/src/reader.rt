// The network file: one head, its elements, its links, one end.
ghost use Rattle.std.specs.Prelude.{◌≡◌, ◌+◌, ◌<◌, ◌≤◌, length};
ghost use Rattle.file_fields.specs.Fields.{word};
ghost use Rattle.file_fields.specs.Views.{nothing_seen, network_seen};
ghost use Rattle.network.specs.Networks.{empty_network};
ghost use Rattle.file_network.specs.Runs.{records, always};
ghost use Rattle.file_network.specs.NetworkFiles.{narrow_element, wide_element, element_of, ElementThere, LinkThere, guard_of, link_of, with_element, with_link, network_file, elements_on, links_on, end_on};
ghost use Rattle.file_network.specs.Inputs.{part_of};
ghost use Rattle.file_stages.specs.declared.Stage.{Stage};
ghost use Rattle.file_stages.specs.declared.Stage.TheVariants.{Elements, Links};

use file_fields::{Seen, wide_word_at, word_at};
use file_records::due_at;
use file_stages::{Stage, after_last};
use network::refusal::Refusal;
use network::{Element, Link, Network};

// What has been read, with the offset and the stage of the record that is due next.
#[derive(Clone, Copy)]
pub struct Part<T> {
    pub value: T,
    pub at: usize,
    pub stage: Stage,
}

// The fields of the element record of kind 2 at an offset.
fn narrow_element(s: &[u8], at: usize) -> Element
    requires { at + 10 ≤ length s.now }
    ensures { result ≡ narrow_element s.now at }
{
    let load = word_at(s, at + 4) as u32;
    let capacity = word_at(s, at + 6) as u32;
    let flags = word_at(s, at + 8);
    Element {
        load,
        capacity,
        flags,
    }
}

// The fields of the element record of kind 7 at an offset.
fn wide_element(s: &[u8], at: usize) -> Element
    requires { at + 14 ≤ length s.now }
    ensures { result ≡ wide_element s.now at }
{
    let load = wide_word_at(s, at + 4);
    let capacity = wide_word_at(s, at + 8);
    let flags = word_at(s, at + 12);
    Element {
        load,
        capacity,
        flags,
    }
}

// The fields of the element record at an offset, by its kind.
fn element_at(s: &[u8], at: usize, kind: u16) -> Element
    requires { ElementThere s.now at kind }
    ensures { result ≡ element_of s.now at }
{
    if kind == 7 {
        return wide_element(s, at);
    }
    narrow_element(s, at)
}

// The guard in the link record at an offset, by its kind.
fn guard_at(s: &[u8], at: usize, kind: u16) -> u16
    requires { LinkThere s.now at kind }
    ensures { result ≡ guard_of s.now at }
{
    if kind == 8 {
        return word_at(s, at + 12);
    }
    Network::NO_GUARD
}

// The fields of the link record at an offset, by its kind.
fn link_at(s: &[u8], at: usize, kind: u16) -> Link
    requires { LinkThere s.now at kind }
    ensures { result ≡ link_of s.now at }
{
    let from = word_at(s, at + 4);
    let to = word_at(s, at + 6);
    let form = word_at(s, at + 8);
    let cost = word_at(s, at + 10);
    let guard = guard_at(s, at, kind);
    Link {
        from,
        to,
        form,
        cost,
        guard,
    }
}

// So many element records from an offset on.
fn read_elements(
    s: &[u8],
    count: usize,
    start: usize,
    first: Stage,
) -> Result<Part<Network>, Refusal>
    requires { (count ≤ 64) × (first ≡ Elements) }
    ensures { result ≡ part_of (records s.now (always nothing_seen) (with_element s.now) count start first empty_network) }
{
    let none = [0; 96];
    let seen = Seen {
        elements: 0,
        links: 0,
        form: &none,
    };
    let mut net = Network::empty();
    let mut at = start;
    let mut stage = first;
    for i in 0..count {
        let record = due_at(s, at, stage, seen)?;
        let element = element_at(s, at, record.kind);
        net.load[i] = element.load;
        net.capacity[i] = element.capacity;
        net.flags[i] = element.flags;
        net.elements = i + 1;
        at += record.length as usize;
        stage = record.next;
    }
    let value = net;
    Ok(Part { value, at, stage })
}

// So many link records from an offset on, after the elements.
fn read_links(
    s: &[u8],
    count: usize,
    start: usize,
    first: Stage,
    elements: Network,
) -> Result<Part<Network>, Refusal>
    requires { (count ≤ 96) × (elements.links ≡ 0) × (first ≡ Links) }
    ensures { result ≡ part_of (records s.now network_seen (with_link s.now) count start first elements) }
{
    let mut net = elements;
    let mut at = start;
    let mut stage = first;
    for i in 0..count {
        let seen = Seen {
            elements: net.elements,
            links: net.links,
            form: &net.form,
        };
        let record = due_at(s, at, stage, seen)?;
        let link = link_at(s, at, record.kind);
        net.from[i] = link.from;
        net.to[i] = link.to;
        net.form[i] = link.form;
        net.cost[i] = link.cost;
        net.guard[i] = link.guard;
        net.links = i + 1;
        at += record.length as usize;
        stage = record.next;
    }
    let value = net;
    Ok(Part { value, at, stage })
}

fn end_on(s: &[u8], at: usize, stage: Stage, net: Network) -> Result<Part<Network>, Refusal>
    ensures { result ≡ part_of (end_on s.now at stage net) }
{
    let none = [0; 96];
    let seen = Seen {
        elements: 0,
        links: 0,
        form: &none,
    };
    let record = due_at(s, at, stage, seen)?;
    let after = at + record.length as usize;
    Ok(Part {
        value: net,
        at: after,
        stage: record.next,
    })
}

fn links_on(s: &[u8], at: usize, stage: Stage, net: Network) -> Result<Part<Network>, Refusal>
    requires { (8 ≤ length s.now) × (word s.now 6 ≤ 96) × (net.links ≡ 0) × (stage ≡ Links) }
    ensures { result ≡ part_of (links_on s.now at stage net) }
{
    let count = word_at(s, 6) as usize;
    let part = read_links(s, count, at, stage, net)?;
    end_on(s, part.at, after_last(part.stage), part.value)
}

fn elements_on(s: &[u8], at: usize, stage: Stage) -> Result<Part<Network>, Refusal>
    requires { (8 ≤ length s.now) × (word s.now 4 ≤ 64) × (word s.now 6 ≤ 96) × (stage ≡ Elements) }
    ensures { result ≡ part_of (elements_on s.now at stage empty_network) }
{
    let count = word_at(s, 4) as usize;
    let part = read_elements(s, count, at, stage)?;
    links_on(s, part.at, after_last(part.stage), part.value)
}

// The network file at the front of `s`, whatever follows it.
pub fn network_file(s: &[u8]) -> Result<Part<Network>, Refusal>
    ensures { result ≡ part_of (network_file s.now) }
{
    let none = [0; 96];
    let seen = Seen {
        elements: 0,
        links: 0,
        form: &none,
    };
    let head = due_at(s, 0, Stage::Head, seen)?;
    elements_on(s, head.length as usize, head.next)
}
