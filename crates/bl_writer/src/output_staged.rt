// All of an output, staged.
ghost use Rattle.std.specs.Prelude.{◌≡◌, length, None, option_map, IfOk, IfErr, OnOk};
ghost use Rattle.bl_format.specs.Limits.{most_input_bytes};
ghost use Rattle.bl_file.specs.Calls.{IsOpen, Tells};
ghost use Rattle.bl_file.specs.Frames.{CountsReads};
ghost use Rattle.bl_writer.specs.Calls.{CountsWrites, HoldsFrom, RefusesFirst, Stages};
ghost use Rattle.bl_writer.specs.Lengths.{IsMeasured, IsMeasureFault, KeepsOutputLimits, output_size};
ghost use Rattle.bl_writer.specs.Outputs.{IsOutput, output_form};
ghost use Rattle.bl_writer.specs.Rendering.{staged_as};

use crate::buffer::new_buffer;
use crate::fault::{WriteFault, write_fault};
use crate::measure::{Lengths, measure};
use crate::output::Output;
use crate::rendering::Totals;
use crate::staging::write_all;
use bl_blocks::LONGEST_HEAD;
use bl_file::{Payload, Targets};
use bl_sdna::write_catalogue;
use bl_shelf::{Shelf, ShelfFault};
use std::alloc::Global;

// How many bytes are held back at least before a push.
const LEAST_BUFFER: u64 = 65_536;

/// What is known of an output before it is staged: its catalogue as it is written, and its lengths.
#[derive(Drop)]
pub struct Measured {
    pub catalogue: Vec<u8>,
    pub lengths: Lengths,
}

// Measures an output.
fn measure_output(alloc: Global, output: &Output) -> Result<Measured, WriteFault>
    requires { IsOutput output.now most_input_bytes }
    ensures measured { IfOk result (IsMeasured output.now) }
    ensures refuses { IfErr result (IsMeasureFault output.now) }
{
    let layout = output.structs.layout;
    let catalogue = match write_catalogue(alloc, output.header.order, layout.catalogue()) {
        Ok(catalogue) => catalogue,
        Err(_) => return Err(WriteFault::NoMemory),
    };
    match measure(output, catalogue.len()) {
        Ok(lengths) => Ok(Measured { catalogue, lengths }),
        Err(fault) => Err(fault),
    }
}

// Stages all of an output that is measured. All memory is taken by the end of `stage`.
fn stage_output<S: Shelf, P: Payload, T: Targets>(
    alloc: Global,
    output: &Output,
    measured: &Measured,
    targets: &T,
    payload: &mut P,
    shelf: &mut S,
    name: &str,
) -> Result<(), ShelfFault>
    requires output { IsOutput output.now (P.file_size payload.old) }
    requires measured { IsMeasured output.now measured.now }
    requires targets { T.count targets.now ≡ length output.now.nodes.now }
    requires held { IsOpen S.Shelf P.Payload shelf.old payload.old }
    requires staged { S.room shelf.old ≡ None }
    ensures staged { OnOk result (Tells S.Shelf P.Payload shelf.old payload.old (λ b.
        S.told shelf.new ≡ option_map (staged_as name.now
        (output_form (T.names targets.now) output.now b)) (S.told shelf.old))) }
    ensures stages { Stages S.Shelf name.now shelf.old shelf.new result }
    ensures bytes { OnOk result (Tells S.Shelf P.Payload shelf.old payload.old (λ b.
        measured.now.lengths.bytes ≡ length (output_form (T.names targets.now) output.now b))) }
    ensures holds { HoldsFrom S.Shelf P.Payload shelf.old shelf.new payload.old payload.new }
    ensures cause { CountsReads S.Shelf shelf.old shelf.new result }
{
    let lengths = measured.lengths;
    let catalogue = measured.catalogue.as_slice();
    let mut scratch = vec![in alloc; 0; lengths.scratch as usize]?;
    let longest = (LONGEST_HEAD as u64 + catalogue.len() as u64)
        .max(lengths.block)
        .max(LEAST_BUFFER);
    let mut buffer = new_buffer(alloc, longest as usize)?;
    shelf.stage(name, lengths.bytes)?;
    match write_all(
        output,
        targets,
        payload,
        catalogue,
        &mut scratch,
        shelf,
        &mut buffer,
    ) {
        Ok(()) => Ok(()),
        Err(fault) => {
            shelf.abandon();
            Err(fault)
        }
    }
}

/// Stages all of an output under a name, unless it passes a limit. After a refusal nothing is staged.
pub fn render_output<S: Shelf, P: Payload, T: Targets>(
    alloc: Global,
    output: &Output,
    targets: &T,
    payload: &mut P,
    shelf: &mut S,
    name: &str,
) -> Result<Totals, WriteFault>
    requires output { IsOutput output.now (P.file_size payload.old) }
    requires targets { T.count targets.now ≡ length output.now.nodes.now }
    requires held { IsOpen S.Shelf P.Payload shelf.old payload.old }
    requires staged { S.room shelf.old ≡ None }
    ensures staged { OnOk result (Tells S.Shelf P.Payload shelf.old payload.old (λ b.
        S.told shelf.new ≡ option_map (staged_as name.now
        (output_form (T.names targets.now) output.now b)) (S.told shelf.old))) }
    ensures stages { Stages S.Shelf name.now shelf.old shelf.new result }
    ensures blocks { IfOk result (λ totals. totals.blocks ≡ length output.now.nodes.now) }
    ensures size { IfOk result (λ totals. totals.bytes ≡ output_size output.now) }
    ensures bytes { IfOk result (λ totals. Tells S.Shelf P.Payload shelf.old payload.old (λ b.
        totals.bytes ≡ length (output_form (T.names targets.now) output.now b))) }
    ensures limits { KeepsOutputLimits output.now result }
    ensures first { RefusesFirst S.Shelf shelf.old shelf.new result }
    ensures holds { HoldsFrom S.Shelf P.Payload shelf.old shelf.new payload.old payload.new }
    ensures cause { CountsWrites S.Shelf shelf.old shelf.new result }
{
    let measured = match measure_output(alloc, output) {
        Ok(measured) => measured,
        Err(fault) => return Err(fault),
    };
    match stage_output(alloc, output, &measured, targets, payload, shelf, name) {
        Ok(()) => Ok(Totals {
            blocks: output.nodes.len() as u64,
            bytes: measured.lengths.bytes,
        }),
        Err(fault) => Err(write_fault(fault)),
    }
}
