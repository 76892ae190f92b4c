// Reading the names that a person gives to the objects of an image.
use crate::cause::tell_line;
use command_line::Job;
use names::{DRAWN, NamedLines, Names, NamesFault, TOLD};
use std::fs;
use toml::Table;

/// Why the names in a file can't be used.
#[derive(Clone, Copy)]
pub(crate) enum NoNames {
    NoMemory,
    /// For another reason; its message is written already.
    Told,
}

/// What names the lines of a command's output and of its trace, and the names that a shell takes and `describe` writes.
#[derive(Drop)]
pub(crate) struct Naming {
    pub(crate) output: Option<NamedLines>,
    pub(crate) trace: Option<NamedLines>,
    pub(crate) names: Option<Names>,
}

// The message for a key that isn't a name.
const NOT_NAME: &str = "a name has letters, digits, _ and -, and begins with a letter";

// Writes why a file of names is bad.
fn tell(rt: &HostRuntime, file: &str, why: &str) -> NoNames {
    tell_line(rt, file, why);
    NoNames::Told
}

// Writes why a key in a file of names is bad.
fn tell_key(rt: &HostRuntime, file: &str, key: &str, why: &str) -> NoNames {
    let _reported = eprintln!(rt; "eros: {file}: {key}: {why}");
    NoNames::Told
}

// Reads the table in a file.
fn table_in(rt: &HostRuntime, file: &str) -> Result<Table, NoNames> {
    let bytes = match fs::read(rt, file) {
        Ok(bytes) => bytes,
        Err(error) => {
            tell_line(rt, file, error);
            return Err(NoNames::Told);
        }
    };
    let Ok(text) = str::from_utf8(&bytes) else {
        return Err(tell(rt, file, "not a text in UTF-8"));
    };
    match toml::table_from_str(rt.alloc(), text) {
        Ok(table) => Ok(table),
        Err(error) if error.is_memory() => Err(NoNames::NoMemory),
        Err(error) => Err(tell(rt, file, error.message())),
    }
}

// Reads the names from the table in a file.
fn names_of(rt: &HostRuntime, file: &str, table: &Table) -> Result<Names, NoNames> {
    match Names::read(rt.alloc(), table) {
        Ok(names) => Ok(names),
        Err(NamesFault::NoMemory) => Err(NoNames::NoMemory),
        Err(NamesFault::NotName(key)) => Err(tell_key(rt, file, key, NOT_NAME)),
        Err(NamesFault::NotNumber(key)) => Err(tell_key(rt, file, key, "its value isn't a number")),
        Err(NamesFault::Twice(key)) => Err(tell_key(rt, file, key, "its number has another name")),
    }
}

// Returns the words before an object's number in a job's output.
fn kinds_of(job: &Job<'_>) -> &'static [&'static [u8]] {
    match job {
        Job::Draw { .. } => DRAWN,
        _ => TOLD,
    }
}

// Returns what adds the names in a table to a job's lines.
fn lines_by(
    rt: &HostRuntime,
    job: &Job<'_>,
    file: &str,
    table: &Table,
) -> Result<Option<NamedLines>, NoNames> {
    match job {
        Job::Describe { .. } => Ok(None),
        _ => match names_of(rt, file, table) {
            Ok(names) => Ok(Some(NamedLines::new(rt.alloc(), names, kinds_of(job)))),
            Err(why) => Err(why),
        },
    }
}

// The names that a shell takes and `describe` writes.
fn taken_names(
    rt: &HostRuntime,
    job: &Job<'_>,
    file: &str,
    table: &Table,
) -> Result<Option<Names>, NoNames> {
    match job {
        Job::Shell { .. } | Job::Describe { .. } => match names_of(rt, file, table) {
            Ok(names) => Ok(Some(names)),
            Err(why) => Err(why),
        },
        _ => Ok(None),
    }
}

/// Returns what adds the names of a file to a job's lines. There is none without a file, or for JSON, which has no
/// names.
pub(crate) fn naming_of(
    rt: &HostRuntime,
    job: &Job<'_>,
    is_json: bool,
    file: Option<&str>,
) -> Result<Naming, NoNames> {
    let Some(file) = file else {
        return Ok(Naming {
            output: None,
            trace: None,
            names: None,
        });
    };
    let table = match table_in(rt, file) {
        Ok(table) => table,
        Err(why) => return Err(why),
    };
    let output = lines_by(rt, job, file, &table)?;
    let trace = lines_by(rt, job, file, &table)?;
    let names = taken_names(rt, job, file, &table)?;
    if is_json {
        return Ok(Naming {
            output: None,
            trace: None,
            names: None,
        });
    }
    Ok(Naming {
        output,
        trace,
        names,
    })
}
