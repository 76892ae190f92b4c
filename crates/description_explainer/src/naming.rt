// Writing the text of a description's objects. Each function that writes fails only if memory runs out.
ghost use Rattle.std.specs.Prelude.{◌≡◌, ◌==◌, ◌++◌, ◌||◌, OnOk, position, string_bytes};
ghost use Rattle.std.specs.List.{list_any};
ghost use Rattle.description_explainer.specs.Text.{listed_number, node_text, object_text, page_text, part_text};
ghost use Rattle.description_explainer.specs.Text.{process_text};

use description::{BankEntry, Description, Named, NodeEntry, ProcessEntry};
use std::alloc::AllocError;

// Returns the number of an object, or 0 if the description has no such object.
pub(crate) fn listed_number(description: &Description, named: Named) -> u64
    ensures { result ≡ listed_number description.now named }
{
    match named {
        Named::Bank(k) => match description.banks.get(k) {
            Some(bank) => bank.number,
            None => 0,
        },
        Named::Root(k) => match description.processes.get(k) {
            Some(process) => process.root,
            None => 0,
        },
        Named::Annex(k) => match description.processes.get(k) {
            Some(process) => process.annex,
            None => 0,
        },
        Named::Node(k) => match description.nodes.get(k) {
            Some(node) => node.number,
            None => 0,
        },
        Named::Page(k) => match description.pages.get(k) {
            Some(page) => page.number,
            None => 0,
        },
    }
}

// Writes the text of the process at index `k` of its list. The next two functions write that of a node and of a
// page.
pub(crate) fn put_process(
    text: &mut String,
    description: &Description,
    k: usize,
) -> Result<(), AllocError>
    ensures { OnOk result
        (string_bytes text.new ≡ string_bytes text.old ++ process_text description.now k) }
{
    let root = listed_number(description, Named::Root(k));
    write!(text, "process {root}")
}

pub(crate) fn put_node(
    text: &mut String,
    description: &Description,
    k: usize,
) -> Result<(), AllocError>
    ensures { OnOk result
        (string_bytes text.new ≡ string_bytes text.old ++ node_text description.now k) }
{
    let number = listed_number(description, Named::Node(k));
    write!(text, "node {number}")
}

pub(crate) fn put_page(
    text: &mut String,
    description: &Description,
    k: usize,
) -> Result<(), AllocError>
    ensures { OnOk result
        (string_bytes text.new ≡ string_bytes text.old ++ page_text description.now k) }
{
    let number = listed_number(description, Named::Page(k));
    write!(text, "page {number}")
}

// Whether a bank has this number. The next function does the same for nodes.
fn is_bank(banks: &[BankEntry], number: u64) -> bool
    ensures { result ≡ list_any (λ b. b.number == number) banks.now }
{
    banks.iter().any(|bank| bank.number == number)
}

fn is_node(nodes: &[NodeEntry], number: u64) -> bool
    ensures { result ≡ list_any (λ o. o.number == number) nodes.now }
{
    nodes.iter().any(|node| node.number == number)
}

// Returns the index of the first process whose root or annex has this number, or `None`.
fn process_with(processes: &[ProcessEntry], number: u64) -> Option<usize>
    ensures { result ≡ position (λ p. p.root == number || p.annex == number) processes.now }
{
    processes.iter().position(|process| process.root == number || process.annex == number)
}

// Writes the text of the object with this number, which isn't a bank.
fn put_part(text: &mut String, description: &Description, number: u64) -> Result<(), AllocError>
    ensures { OnOk result (string_bytes text.new
        ≡ string_bytes text.old ++ part_text description.now number
        (position (λ p. p.root == number || p.annex == number) description.now.processes.items)) }
{
    match process_with(&description.processes, number) {
        Some(k) => put_process(text, description, k),
        None => {
            if is_node(&description.nodes, number) {
                write!(text, "node {number}")
            } else {
                write!(text, "page {number}")
            }
        }
    }
}

// Writes the text of the object with this number. An annex has the text of its process.
pub(crate) fn put_object(
    text: &mut String,
    description: &Description,
    number: u64,
) -> Result<(), AllocError>
    ensures { OnOk result
        (string_bytes text.new ≡ string_bytes text.old ++ object_text description.now number) }
{
    if is_bank(&description.banks, number) {
        write!(text, "bank {number}")
    } else {
        put_part(text, description, number)
    }
}
