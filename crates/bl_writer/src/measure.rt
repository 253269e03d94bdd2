// How long an output is, and the first limit that it passes.
ghost use Rattle.std.specs.Prelude.{◌≡◌, ◌≤◌, ◌<◌, ◌^◌, length, IfOk, IfErr};
ghost use Rattle.bl_format.specs.Limits.{most_input_bytes};
ghost use Rattle.bl_format.specs.Schema.{catalogue_written};
ghost use Rattle.bl_writer.specs.Lengths.{AreLengths, IsSizeFault, form_length};
ghost use Rattle.bl_writer.specs.Outputs.{IsOutput, target_of};

use crate::fault::WriteFault;
use crate::nodes::{node_scratch, payload_length};
use crate::output::Output;
use bl_blocks::head_size;
use bl_file::Header;
use bl_header::HEADER_SIZE;

// How many bytes a payload may have.
const LONGEST_PAYLOAD: u64 = 2_147_483_647;

// How many bytes an output may have.
const LONGEST_OUTPUT: u64 = 2_147_483_648;

/// The bytes of the longest block, the most that is read of a node before it is written, and all
/// bytes of an output.
#[derive(Clone, Copy)]
pub struct Lengths {
    pub block: u64,
    pub scratch: u64,
    pub bytes: u64,
}

/// Measures an output whose catalogue is written in so many bytes: the first payload that is too long
/// is told, or that all is.
pub fn measure(output: &Output, catalogue: usize) -> Result<Lengths, WriteFault>
    requires output { IsOutput output.now most_input_bytes }
    requires catalogue { catalogue
        ≡ length (catalogue_written output.now.header.order (target_of output.now)) }
    ensures measured { IfOk result (AreLengths output.now) }
    ensures refuses { IfErr result (IsSizeFault output.now) }
{
    let head = head_size(&output.header) as u64;
    let mut blocks = 0;
    let mut block = 0;
    let mut scratch = 0;
    for k in 0..output.nodes.len() as u32 {
        let len = payload_length(output, k);
        if len > LONGEST_PAYLOAD {
            return Err(WriteFault::BlockTooLong(len));
        }
        blocks += head + len;
        block = (head + len).max(block);
        scratch = node_scratch(output, k).max(scratch);
    }
    let bytes = form_length(&output.header, blocks, catalogue);
    if bytes > LONGEST_OUTPUT {
        return Err(WriteFault::FileTooLarge(bytes));
    }
    Ok(Lengths {
        block,
        scratch,
        bytes,
    })
}

// The bytes of an output, by those of its blocks and of its catalogue.
fn form_length(header: &Header, blocks: u64, catalogue: usize) -> u64
    requires blocks { blocks ≤ 2 ^ 55 }
    requires catalogue { catalogue < 2 ^ 31 }
    ensures { result ≡ form_length header.now blocks catalogue }
{
    let head = head_size(header) as u64;
    HEADER_SIZE as u64 + blocks + (head + catalogue as u64) + head
}
