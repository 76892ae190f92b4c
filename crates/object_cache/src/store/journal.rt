// Saves the present words of one page without a checkpoint.
ghost use Rattle.std.specs.Prelude.{◌≡◌, ◌<◌, ◌≤◌, ◌^◌, None, length, nat_lt, option_map, true, IfOk, OnOk, Bool};
ghost use Rattle.std.specs.Prelude.{Err, IfErr};
ghost use Rattle.model.specs.Frame.{frame_at, header_at, content_behind};
ghost use Rattle.model.specs.Object.{is_page, words_in};
ghost use Rattle.model.specs.Sound.{object_count};
ghost use Rattle.checkpoint.specs.Snapshots.{journaled};
ghost use Rattle.migrator.specs.Durable.{stored_of, is_sound, left_of, newest, ReadsStore};
ghost use Rattle.checkpoint.specs.Refused.{IsJournalAnswer, IsTurnedAway, IsJournalCheck};
ghost use Rattle.checkpoint.specs.Journal.{is_page_role, is_same_page};
ghost use Rattle.object_cache.specs.Journaled.{JournalsPage, MaySave, SavesPage, held_now};
ghost use Rattle.layout.specs.Frames.{IsObject};

use cache_entries::Entries;
use capability::ObjectTable;
use device::{Device, Failed};
use layout::Scratch;
use migrator::Durable;
use model::{ContentRef, ObjectHeader, Refusal, Role, Unjournaled};

// Whether a role is that of a page.
fn is_of_page(role: Role) -> bool
    ensures { result ≡ is_page_role role }
{
    match role {
        Role::Page => true,
        _ => false,
    }
}

// Returns the header of a saved page that may be journaled. Reads the device.
//
// Returns `NotJournaled(Renewed)` exactly if no page with this allocation count is saved at the number, and
// `Fault` exactly if the device failed.
fn page_saved<D: Device>(
    durable: &mut Durable<D>,
    number: u64,
    allocations: u64,
) -> Result<ObjectHeader, Refusal>
    requires object { IsObject durable.old.books.plan.geometry number }
    requires home { (stored_of D.disk durable.old).saved.entries ≡ 0 }
    ensures answer { (is_known : Bool) → IsJournalCheck (D.disk durable.old.beneath) (D.disk durable.new.beneath) None
        (stored_of D.disk durable.old).saved is_known true (is_same_page allocations
        (frame_at (stored_of D.disk durable.old).saved.frames number)) result }
    ensures header { IfOk result (λ header. header
        ≡ (frame_at (stored_of D.disk durable.old).saved.frames number).header) }
    ensures late { IfErr result (λ why. IsTurnedAway (Err why) → ⊥) }
    ensures reads { ReadsStore D.disk durable.old durable.new }
{
    let header = durable.saved_header(number)?;
    if is_of_page(header.role) && allocations == header.allocations {
        return Ok(header);
    }
    Err(Refusal::NotJournaled(Unjournaled::Renewed))
}

// Checks all conditions for journaling a page, except for what is saved at its number. `header` is its
// present header, and `is_known` says whether an object has the number. Refuses as `ObjectStore::journal`
// does, without a device call.
fn may_journal<D: Device>(
    durable: &Durable<D>,
    header: ObjectHeader,
    is_known: bool,
) -> Result<(), Refusal>
    ensures free { OnOk result ((stored_of D.disk durable.now).frozen ≡ None) }
    ensures home { OnOk result ((stored_of D.disk durable.now).saved.entries ≡ 0) }
    ensures page { OnOk result (is_page_role header.role ≡ true) }
    ensures answer { IfErr result (λ why. (is_saved : Bool) → IsJournalAnswer (D.disk durable.now.beneath)
        (D.disk durable.now.beneath) (option_map left_of (stored_of D.disk durable.now).frozen)
        (stored_of D.disk durable.now).saved is_known (is_page_role header.role) is_saved (Err why)) }
{
    if durable.left().is_some() {
        return Err(Refusal::CheckpointRunning);
    }
    if durable.saved().entries != 0 {
        return Err(Refusal::MigrationPending);
    }
    if !is_known {
        return Err(Refusal::BadNumber);
    }
    if !is_of_page(header.role) {
        return Err(Refusal::NotJournaled(Unjournaled::NotPage));
    }
    Ok(())
}

// Saves a page with the words of a body, under its saved header, as `Durable::save_page` does.
fn save_content<D: Device>(
    durable: &mut Durable<D>,
    content: ContentRef<'_>,
    header: ObjectHeader,
    number: u64,
    age: u64,
) -> Result<u64, Failed>
    requires page { is_page (content_behind content) ≡ true }
    requires may { MaySave D.disk durable.old header number age }
    ensures { SavesPage D.disk durable.old durable.new number age
        (words_in (content_behind content.entry)) result }
{
    let ContentRef::Page(words) = content else {
        unreachable!()
    };
    durable.save_page(number, header, words, age)
}

// Saves a page with the words of its newest frame on the device. Fails exactly if the device fails.
fn save_read<D: Device>(
    durable: &mut Durable<D>,
    scratch: &mut Scratch,
    header: ObjectHeader,
    number: u64,
    age: u64,
) -> Result<u64, Failed>
    requires object { number < object_count durable.old.books.plan.geometry }
    requires page { is_page (newest (stored_of D.disk durable.old) number).content ≡ true }
    requires may { MaySave D.disk durable.old header number age }
    ensures { SavesPage D.disk durable.old durable.new number age
        (words_in (newest (stored_of D.disk durable.old) number).content) result }
{
    durable.fetch(number, scratch)?;
    durable.save_page(number, header, scratch.words.as_array(), age)
}

// Saves a page with its present words: those in its entry if it has one, else those on the device.
fn save_present<D: Device>(
    durable: &mut Durable<D>,
    entries: &Entries,
    scratch: &mut Scratch,
    header: ObjectHeader,
    number: u64,
    age: u64,
) -> Result<u64, Failed>
    requires known { number < length entries.now.at }
    requires object { number < object_count durable.old.books.plan.geometry }
    requires page { is_page (held_now entries.now.at (stored_of D.disk durable.old) number) ≡ true }
    requires may { MaySave D.disk durable.old header number age }
    ensures { SavesPage D.disk durable.old durable.new number age
        (words_in (held_now entries.now.at (stored_of D.disk durable.old) number)) result }
{
    if entries.holds(number) {
        return save_content(durable, entries.present(number), header, number, age);
    }
    save_read(durable, scratch, header, number, age)
}

// Saves a page with its present words, if nothing refuses it.
pub(crate) fn journal_page<D: Device>(
    durable: &mut Durable<D>,
    table: &ObjectTable,
    entries: &Entries,
    scratch: &mut Scratch,
    number: u64,
    age: u64,
) -> Result<u64, Refusal>
    requires object { is_page_role (header_at table.now number).role ≡ true
        → (number < length entries.now.at) × (number < object_count durable.old.books.plan.geometry) }
    requires page { (stored_of D.disk durable.old).frozen ≡ None → is_page_role (header_at table.now number).role ≡ true
        → is_page (held_now entries.now.at (stored_of D.disk durable.old) number) ≡ true }
    requires sound { is_sound D.disk durable.old }
    requires later { (stored_of D.disk durable.old).saved.age < age }
    requires most { age ≤ 2 ^ 62 }
    ensures { JournalsPage D.disk durable.old durable.new entries.now.at (header_at table.now number)
        (nat_lt number (length table.now)) number age result }
{
    let header = table.header(number);
    may_journal(durable, header, number < table.count())?;
    let saved = page_saved(durable, number, header.allocations)?;
    let generation = save_present(durable, entries, scratch, saved, number, age)?;
    Ok(generation)
}
