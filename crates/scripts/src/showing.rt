//! The names of a side, as a script shows them.
ghost use Rattle.device.specs.Sending.{SendsOn};
ghost use Rattle.partition_table.specs.Tables.{rows_of};
ghost use Rattle.exchange_law.specs.Sides.{shown_table};
ghost use Rattle.cluster.specs.Clusters.{at};
ghost use Rattle.scripts.specs.Machines.{machine_of};
ghost use Rattle.scripts.specs.Replies.{rows_text};

use crate::labels::resolver_text;
use crate::machine::Machine;
use clash_record::SideId;
use device::{DeviceFault, send_after};
use script_text::print_row;
use std::io::Write;

impl Machine {
    /// Prints the names of a side with their registrations, in the order of names, and a line with `end`. Takes no
    /// memory.
    pub fn print_rows<W: Write>(
        &self,
        sent: Result<(), DeviceFault>,
        writer: &mut W,
        side: SideId,
    ) -> Result<(), DeviceFault>
        ensures { SendsOn sent (W.contents writer.old) (W.contents writer.new) (rows_text (machine_of self.now).labels
            (rows_of (shown_table (at (machine_of self.now).cluster side).side))) result }
    {
        let mut sent = sent;
        for (name, registration) in self.cluster.side(side).rows() {
            let resolver = resolver_text(&self.labels, &registration.resolver);
            sent = print_row(sent, writer, name, registration, resolver);
        }
        send_after(sent, writer, b"end\n")
    }
}
