//! What `query`, `explain` and `list` print of devices, of a database of which the strings alone are held. The records that they
//! need are read.
ghost use Rattle.std.specs.Prelude.{◌≡◌, ◌≤◌, ℕ, List, IfOk, IfSome, flat_map, length, map, string_bytes, take};
ghost use Rattle.hwdb_spec.specs.Answers.{effective_of};
ghost use Rattle.hwdb_spec.specs.Explanations.{explained};
ghost use Rattle.hwdb_spec.specs.Assignment.{Assignment};
ghost use Rattle.hwdb_spec.specs.Texts.{within_limit};
ghost use Rattle.hwdb_spec_commands.specs.Databases.{IsTextOf};
ghost use Rattle.hwdb_spec_commands.specs.Listings.{line_of};
ghost use Rattle.hwdb_spec.specs.Format.{IsDatabase};
ghost use Rattle.hwdb_spec.specs.Tree.{Tree, answers, answers_after};
ghost use Rattle.hwdb_spec_commands.specs.Streams.{texts_of};
ghost use Rattle.hwdb_query.specs.Views.{assignments_of_hits, explained_values, given_position, pairs_bytes};
ghost use Rattle.hwdb_lookup.specs.Files.Views.{AreOf, IsKept};
ghost use Rattle.hwdb_lookup.specs.Windows.{IsOfWindows};
ghost use Rattle.hwdb_answers.specs.Internal.{answer_text};
ghost use Rattle.hwdb_answers.specs.Asked.{IsListOf, IsWantedText};

use crate::device_texts::behind;
use crate::explanation::explanation_lines;
use crate::hit_lines::set_line;
use crate::json_explanations::explanation_lines_json;
use crate::json_lines::device_line;
use crate::listing::{ListAsked, position_of};
use crate::texts::property_lines;
use hwdb_io::Places;
use hwdb_lookup::{
    KeptFile, ReadWindows, Stop, Windows, explain_windows, hits_windows, lookup_windows,
};
use hwdb_query::{Explained, Hit, Position};
use hwdb_spec_commands::Form;
use std::alloc::{AllocError, Global};

/// How many windows are read for one device, since each begins its lookup anew. Devices need at most 16 of Debian's
/// database. A device that needs more is asked of the whole file.
const MOST: usize = 32;

/// What is printed of a device with these properties, after those before it.
fn lines_of_properties(
    alloc: Global,
    device: &[u8],
    properties: &[(&[u8], &[u8])],
    json: bool,
    is_first: bool,
) -> Result<Vec<u8>, AllocError>
    ensures { IfOk result (λ text. (t : Tree)
        → pairs_bytes properties.now ≡ effective_of (answers device.now t)
        → text.items ≡ answer_text (Form.Query json) is_first device.now t) }
{
    if json {
        device_line(alloc, device, properties)
    } else {
        behind(alloc, property_lines(alloc, properties)?, is_first)
    }
}

/// The same of a device whose properties are told with their lines.
fn lines_of_explanation(
    alloc: Global,
    device: &[u8],
    told: &[Explained<'_>],
    json: bool,
    is_first: bool,
) -> Result<Vec<u8>, AllocError>
    ensures { IfOk result (λ text. (t : Tree)
        → explained_values told.now ≡ explained (answers device.now t)
        → text.items ≡ answer_text (Form.Explain json) is_first device.now t) }
{
    if json {
        explanation_lines_json(alloc, device, told)
    } else {
        behind(alloc, explanation_lines(alloc, told)?, is_first)
    }
}

/// What `query` prints of a device that is looked up in windows.
fn text_of_lookup(
    alloc: Global,
    windows: Windows<'_>,
    device: &[u8],
    json: bool,
    is_first: bool,
) -> Result<Vec<u8>, Stop>
    ensures { IfOk result (λ text. (file : List ℕ) (t : Tree) → IsOfWindows windows.entry file
        → IsDatabase file t
        → text.items ≡ answer_text (Form.Query json) is_first device.now t) }
{
    let properties = lookup_windows(alloc, windows, device)?;
    let text = lines_of_properties(alloc, device, &properties, json, is_first)?;
    Ok(text)
}

/// What `explain` prints of it.
fn text_of_explanation(
    alloc: Global,
    windows: Windows<'_>,
    device: &[u8],
    json: bool,
    is_first: bool,
) -> Result<Vec<u8>, Stop>
    ensures { IfOk result (λ text. (file : List ℕ) (t : Tree) → IsOfWindows windows.entry file
        → IsDatabase file t
        → text.items ≡ answer_text (Form.Explain json) is_first device.now t) }
{
    let explained = explain_windows(alloc, windows, device)?;
    let text = lines_of_explanation(alloc, device, &explained, json, is_first)?;
    Ok(text)
}

/// What is printed of what is looked up in windows.
trait InWindows {
    /// The text, by a database's tree.
    ghost prints: { Self → Tree → List ℕ };

    /// The text, by windows of its file.
    fn text_in(&self, alloc: Global, windows: Windows<'_>) -> Result<Vec<u8>, Stop>
        ensures { IfOk result (λ text. (file : List ℕ) (t : Tree) → IsOfWindows windows.entry file
            → IsDatabase file t → text.items ≡ prints self.now t) };
}

/// The next device, what is printed of it, and whether it is the first.
#[derive(Clone, Copy)]
struct Next<'d> {
    device: &'d [u8],
    form: Form,
    is_first: bool,
}

impl<'d> InWindows for Next<'d> {
    ghost prints = { λ n t. answer_text n.form n.is_first n.device.now t };

    fn text_in(&self, alloc: Global, windows: Windows<'_>) -> Result<Vec<u8>, Stop> {
        let Next {
            device,
            form,
            is_first,
        } = *self;
        match form {
            Form::Query { json } => text_of_lookup(alloc, windows, device, json, is_first),
            Form::Explain { json } => text_of_explanation(alloc, windows, device, json, is_first),
        }
    }
}

/// How many hits are held at most. Of a device with more the whole file is read, and they come by pages.
const MOST_HITS: usize = 256;

/// How many bytes lines of hits may have: if they have more, they come so too.
const MOST_BYTES: usize = 1 << 20;

/// How many hits are looked for: those that are asked for, but at most one more than may be held.
fn sought(limit: Option<u64>) -> usize
    ensures { (hits : List Assignment) → length (take result hits) ≤ 256
        → take result hits ≡ within_limit limit hits }
{
    match limit {
        None => MOST_HITS + 1,
        Some(n) => {
            if n > MOST_HITS as u64 {
                return MOST_HITS + 1;
            }
            n as usize
        }
    }
}

/// The lines of some hits. If they have more bytes than may be held, the error is [`Stop::LongPath`].
fn lines_of_hits(alloc: Global, hits: &[Hit<'_>], json: bool) -> Result<Vec<u8>, Stop>
    ensures { IfOk result
        (λ text. text.items ≡ flat_map (line_of json) (assignments_of_hits hits.now)) }
{
    let mut text = Vec::new(alloc);
    let mut line = Vec::new(alloc);
    for hit in hits {
        set_line(alloc, &mut line, hit, json)?;
        text.extend_from_slice(&line)?;
        if text.len() > MOST_BYTES {
            return Err(Stop::LongPath);
        }
    }
    Ok(text)
}

/// Hits of a device after a position, if there is one.
#[derive(Clone, Copy)]
struct NextHits<'d, 'p> {
    device: &'d [u8],
    after: Option<&'p Position>,
    limit: Option<u64>,
    json: bool,
}

impl<'d, 'p> InWindows for NextHits<'d, 'p> {
    ghost prints = { λ n t. flat_map (line_of n.json)
        (within_limit n.limit (answers_after n.device.now (given_position n.after) t)) };

    /// The lines. If there are more than may be held, the error is [`Stop::LongPath`].
    fn text_in(&self, alloc: Global, windows: Windows<'_>) -> Result<Vec<u8>, Stop> {
        let most = sought(self.limit);
        let hits = hits_windows(alloc, windows, self.device, self.after, most)?;
        if hits.len() > MOST_HITS {
            return Err(Stop::LongPath);
        }
        lines_of_hits(alloc, &hits, self.json)
    }
}

/// What is printed of a file that was accepted. Windows that are needed are read. None if anything fails.
fn text_of_kept<P: Places, N: InWindows>(
    alloc: Global,
    places: &P,
    kept: &KeptFile,
    windows: &mut ReadWindows,
    next: &N,
) -> Option<Vec<u8>>
    ensures stay { IfSome result (λ _. (file : List ℕ) → P.is_of places.now file
        → AreOf windows.old file → AreOf windows.new file) }
    ensures text { IfSome result (λ text. (file : List ℕ) (t : Tree) → P.is_of places.now file
        → IsKept kept.now file → AreOf windows.old file → IsDatabase file t
        → text.items ≡ N.prints next.now t) }
{
    'reading: for _ in 0..MOST {
        let place = match next.text_in(alloc, windows.of(kept)) {
            Ok(text) => return Some(text),
            Err(Stop::Missing(place)) => place,
            Err(_) => return None,
        };
        if !windows.add(places, kept.size, place) {
            return None;
        }
    }
    None
}

/// What is printed of devices.
fn texts_of_kept<P: Places>(
    alloc: Global,
    places: &P,
    kept: &KeptFile,
    devices: &[String],
    form: Form,
) -> Option<Vec<u8>>
    ensures { IfSome result (λ text. (file : List ℕ) → P.is_of places.now file
        → IsKept kept.now file
        → IsTextOf (texts_of form (map string_bytes devices.now)) file text.items) }
{
    let mut windows = ReadWindows::new(alloc);
    let mut all = Vec::new(alloc);
    let mut left = devices;
    let mut is_first = true;
    'answering: while let Some((device, more)) = left.split_first() {
        let next = Next {
            device: device.as_bytes(),
            form,
            is_first,
        };
        let text = text_of_kept(alloc, places, kept, &mut windows, &next)?;
        match all.extend_from_slice(&text) {
            Ok(()) => {}
            Err(_) => return None,
        }
        left = more;
        is_first = false;
    }
    Some(all)
}

/// The lines of hits.
fn list_of_kept<P: Places>(
    alloc: Global,
    places: &P,
    kept: &KeptFile,
    asked: ListAsked<'_>,
) -> Option<Vec<u8>>
    ensures { IfSome result (λ text. (file : List ℕ) → P.is_of places.now file
        → IsKept kept.now file → IsListOf asked.entry file text.items) }
{
    let Ok(after) = position_of(alloc, asked.after) else {
        return None;
    };
    let next = NextHits {
        device: asked.device,
        after: after.as_ref(),
        limit: asked.limit,
        json: asked.json,
    };
    let mut windows = ReadWindows::new(alloc);
    text_of_kept(alloc, places, kept, &mut windows, &next)
}

/// What is wanted of a database.
#[derive(Clone, Copy)]
pub enum Wanted<'a> {
    /// What is printed of devices.
    Devices {
        /// The devices.
        devices: &'a [String],
        /// What is printed of each.
        form: Form,
    },
    /// The lines of hits.
    Hits(ListAsked<'a>),
}

/// What is printed of a file that was accepted. None if anything fails: there is no memory, a window isn't read, or a
/// lookup needs the whole file. None too if the text of a position spells none.
pub fn text_kept<P: Places>(
    alloc: Global,
    places: &P,
    kept: &KeptFile,
    wanted: Wanted<'_>,
) -> Option<Vec<u8>>
    ensures { IfSome result (λ text. (file : List ℕ) → P.is_of places.now file
        → IsKept kept.now file → IsWantedText wanted.entry file text.items) }
{
    match wanted {
        Wanted::Devices { devices, form } => texts_of_kept(alloc, places, kept, devices, form),
        Wanted::Hits(asked) => list_of_kept(alloc, places, kept, asked),
    }
}
