use std::alloc::AllocError;
use voy_event::Events;
use voy_schema::{Copies, Rows};
use voy_tables::RowLists;

/// One step of a store. A table is named by its place in the schema, from 0.
#[derive(Debug, Drop)]
pub enum Txn {
    /// All rows of all tables: for each table of the schema its rows, by ascending key.
    Load { tables: RowLists },
    /// The rows of one batch of a table's snapshot, at least one. They come in the snapshot's order, of which a store asks nothing.
    Batch { table: u32, number: u32, rows: Rows },
    /// 1 to [`MAX_TXN_ITEMS`](crate::MAX_TXN_ITEMS) changes, by ascending vsn, that are taken as those of this channel.
    Events { channel: u32, items: Events },
    /// From here on there are so many channels, from 1 to [`MAX_CHANNELS`](crate::MAX_CHANNELS), each of them done
    /// up to this vsn.
    Epoch { vsn: u64, channels: u32 },
}

impl Copies for Txn {
    fn copy(&self) -> Result<Self, AllocError> {
        match self {
            Txn::Load { tables } => {
                let tables = tables.copy()?;
                Ok(Txn::Load { tables })
            }
            Txn::Batch {
                table,
                number,
                rows,
            } => {
                let rows = rows.copy()?;
                Ok(Txn::Batch {
                    table: *table,
                    number: *number,
                    rows,
                })
            }
            Txn::Events { channel, items } => {
                let items = items.copy()?;
                Ok(Txn::Events {
                    channel: *channel,
                    items,
                })
            }
            Txn::Epoch { vsn, channels } => Ok(Txn::Epoch {
                vsn: *vsn,
                channels: *channels,
            }),
        }
    }
}
