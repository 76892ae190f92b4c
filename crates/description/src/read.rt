// Reading a whole description.
ghost use Rattle.std.specs.Prelude.{◌≡◌, IfErr, IfOk, IsTrue, codes, map};
ghost use Rattle.toml.specs.View.{table_view};
ghost use Rattle.description.specs.Outcomes.{AreBadEntries, AtKey, IsIn, Reads};
ghost use Rattle.description.specs.Reading.{AtOr, IsDescription, IsGeometry, IsList, IsRange, has_only, whole_ranges};
ghost use Rattle.description.specs.Shapes.{BreaksShape, key_name, keys_of};
ghost use Rattle.description.specs.declared.place.Key.TheVariants.{Ranges};
ghost use Rattle.description.specs.declared.place.TableName.TheVariants.{Whole};

use crate::entry::Description;
use crate::list::{entries_of, objects};
use crate::member::{check_keys, member_at, number, number_or};
use crate::place::{Key, Misread, TableName};
use home_ranges::NumberRange;
use model::Geometry;
use std::alloc::Global;
use toml::Table;

// Reads how many nodes, pages and log slots the image has.
fn read_geometry<'a>(table: &Table) -> Result<Geometry, Misread<'a>>
    requires { IsTrue (has_only (map key_name (keys_of Whole)) (table_view table.now)) }
    ensures { Reads (IsGeometry (table_view table.now)) (IsIn Whole (table_view table.now)) result }
{
    let nodes = number(table, TableName::Whole, Key::Nodes)?;
    let pages = number(table, TableName::Whole, Key::Pages)?;
    let log = number(table, TableName::Whole, Key::Log)?;
    Ok(Geometry { nodes, pages, log })
}

// Returns the default ranges: all nodes, then all pages.
fn whole_ranges(geometry: Geometry) -> [NumberRange; 2]
    ensures { result ≡ whole_ranges geometry }
{
    let nodes = NumberRange {
        first: 0,
        count: geometry.nodes,
    };
    let pages = NumberRange {
        first: geometry.nodes,
        count: geometry.pages,
    };
    [nodes, pages]
}

// Reads the ranges. If the table has none, returns one of all nodes and one of all pages.
fn read_ranges<'a>(
    alloc: Global,
    table: &Table,
    geometry: Geometry,
) -> Result<Vec<NumberRange>, Misread<'a>>
    ensures { Reads
        (λ list. AtOr (whole_ranges geometry) (codes "ranges") (IsList IsRange) (table_view table.now) list.items)
        (AtKey Ranges (AreBadEntries IsRange Whole Ranges) (table_view table.now))
        result }
{
    match member_at(table, Key::Ranges) {
        Some(value) => entries_of(alloc, value, TableName::Whole, Key::Ranges),
        None => match Vec::from_array(alloc, whole_ranges(geometry)) {
            Ok(ranges) => Ok(ranges),
            Err(_) => Err(Misread::NoMemory),
        },
    }
}

// Reads the table of a whole description.
fn read_description<'a>(alloc: Global, table: &'a Table) -> Result<Description, Misread<'a>>
    ensures { Reads (IsDescription (table_view table.entry.now)) (BreaksShape (table_view table.entry.now)) result }
{
    check_keys(
        table,
        TableName::Whole,
        &[
            "nodes", "pages", "log", "layout", "age", "ranges", "bank", "process", "node", "page",
        ],
    )?;
    let geometry = read_geometry(table)?;
    let layout = number_or(table, TableName::Whole, Key::Layout, 1)?;
    let age = number_or(table, TableName::Whole, Key::Age, 0)?;
    let ranges = read_ranges(alloc, table, geometry)?;
    let banks = objects(alloc, table, Key::Banks)?;
    let processes = objects(alloc, table, Key::Processes)?;
    let nodes = objects(alloc, table, Key::NodeList)?;
    let pages = objects(alloc, table, Key::PageList)?;
    Ok(Description {
        geometry,
        layout,
        age,
        ranges,
        banks,
        processes,
        nodes,
        pages,
    })
}

impl Description {
    /// Reads the description in a table. Fails with the first flaw of the table, or if memory runs out.
    ///
    /// An unknown key comes first. Then the keys are read in order, and the first is reported whose value is missing
    /// or has the wrong type; if the value is a list, its first malformed item. In an object's table the order is the
    /// same.
    pub fn read<'a>(alloc: Global, table: &'a Table) -> Result<Description, Misread<'a>>
        ensures { Reads (IsDescription (table_view table.entry.now)) (BreaksShape (table_view table.entry.now)) result }
    {
        read_description(alloc, table)
    }
}
