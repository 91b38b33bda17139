//! What an instance is made from: the durations for its table, and its horizon.

ghost use Rattle.std.specs.Prelude.{◌≡◌, ◌*◌, ◌≤◌, take, length, max, All, IfOk, IfErr, OnOk};
ghost use Rattle.manoeuvre.specs.Grid.{IsTable, KeepsShortcut};
ghost use Rattle.manoeuvre.specs.declared.limits.TheConstants.{MAX_MANOEUVRE};
ghost use Rattle.strip_model.specs.Horizon.{greatest_end, end_of};
ghost use Rattle.strip_model.specs.IsInstance.{IsWindow, HasWindows, HasTwoWindows};
ghost use Rattle.strip_model.specs.Orbit.{duration_in};
ghost use Rattle.strip_model.specs.Refusal.{IsRefusedAs, durations_of};
ghost use Rattle.strip_model.specs.declared.limits.TheConstants.{MAX_STRIPS, MAX_HORIZON};

use crate::{ModelRefusal, Strip, Window};
use manoeuvre::{MAX_DIRECTED, Table, TableRefusal};
use std::alloc::Global;

// A duration for each directed strip that there can be.
const MAX_DURATIONS: usize = MAX_DIRECTED as usize;

/// The table of an instance with these strips. It takes memory once no rule is broken.
pub fn table_for(alloc: Global, strips: &[Strip], entries: &[u32]) -> Result<Table, ModelRefusal>
    requires few { length strips.now ≤ MAX_STRIPS }
    requires windows { All HasWindows strips.now }
    requires entries { All (λ m. m ≤ MAX_MANOEUVRE) entries.now }
    ensures made { IfOk result (λ t. t ≡ record { size = 2 * length strips.now; entries = entries.now }) }
    ensures sound { IfOk result IsTable }
    ensures shortcut { IfOk result (KeepsShortcut (duration_in strips.now)) }
    ensures two_windows { OnOk result (All HasTwoWindows strips.now) }
    ensures refused { IfErr result (IsRefusedAs strips.now entries.now) }
{
    let mut durations = [0; MAX_DURATIONS];
    put_durations(&mut durations, strips);
    match Table::new(alloc, &durations[..2 * strips.len()], entries) {
        Ok(table) => Ok(table),
        Err(TableRefusal::Memory) => Err(ModelRefusal::Memory),
        Err(cause) => Err(ModelRefusal::Table(cause)),
    }
}

// Writes the durations of the windows, by directed strip, over the first ones.
fn put_durations(durations: &mut [u32], strips: &[Strip])
    requires room { 2 * length strips.now ≤ length durations.old }
    ensures durations { take (2 * length strips.now) durations.new ≡ durations_of strips.now }
    ensures two_windows { All HasTwoWindows strips.now }
{
    for (i, strip) in strips.iter().enumerate() {
        let [forth, back] = windows_of(*strip);
        durations[2 * i] = forth.duration;
        durations[2 * i + 1] = back.duration;
    }
}

// The windows of a strip, in direction 0 and in direction 1.
fn windows_of(strip: Strip) -> [Window; 2]
    ensures value { result ≡ strip.windows }
    ensures two { HasTwoWindows strip }
{
    strip.windows
}

/// The end of the window that is over last.
pub fn greatest_end(strips: &[Strip]) -> u32
    requires { All HasWindows strips.now }
    ensures value { result ≡ greatest_end strips.now }
    ensures bound { result ≤ MAX_HORIZON }
{
    let mut latest = 0;
    for strip in strips {
        latest = latest
            .max(end_of(strip.windows[0]))
            .max(end_of(strip.windows[1]));
    }
    latest
}

// When an acquisition that starts at the later end of the window is over.
fn end_of(window: Window) -> u32
    requires { IsWindow window }
    ensures value { result ≡ end_of window }
    ensures bound { result ≤ MAX_HORIZON }
{
    window.early.max(window.late) + window.duration
}
