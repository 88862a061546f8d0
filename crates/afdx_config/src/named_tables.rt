//! The tables of a switch, with its name.

ghost use Rattle.std.specs.Prelude.{◌≡◌, ◌<◌, length, string_bytes, slice_get, Some, true};
ghost use Rattle.afdx_config.specs.Lawful.{IsLawfulSwitch};
ghost use Rattle.afdx_config.specs.Reading.{is_name};
ghost use Rattle.afdx_config.specs.Switches.{named_rows};
ghost use Rattle.afdx_config.specs.Rows.{LinkRow};
ghost use Rattle.afdx_config.specs.Changed.{with_buffer, with_link_at, with_times};
ghost use Rattle.afdx_config.specs.Lawful.{IsLinkAmong, IsWithin};
ghost use Rattle.afdx_frame.specs.Lengths.{least_frame, greatest_buffer};

use crate::rows::Times;
use crate::tables::Tables;
use std::marker::Model;

/// The tables of a switch, with its name.
#[derive(Debug)]
pub(crate) struct NamedTables {
    name: String,
    tables: Tables,
}

impl Drop for NamedTables {
    // (written out, it is one call wherever a value is let go)
    fn drop(self) {
        let Self { name, tables } = self;
    }
}

impl Model for NamedTables {
    ghost use Rattle.std.specs.Prelude.{◌≡◌, string_bytes, true};
    ghost use Rattle.afdx_config.specs.Switches.{NamedRows, named_rows};
    ghost use Rattle.afdx_config.specs.Reading.{is_name};
    ghost use Rattle.afdx_config.specs.Lawful.{IsLawfulSwitch};

    ghost Value = { NamedRows };

    ghost view = { λ s. named_rows (string_bytes s.name) s.tables };

    ghost invariant = { λ s.
        (is_name (string_bytes s.name) ≡ true) × IsLawfulSwitch s.tables };
}

impl NamedTables {
    pub(crate) fn new(name: String, tables: Tables) -> NamedTables
        requires name { is_name (string_bytes name) ≡ true }
        requires lawful { IsLawfulSwitch tables }
        ensures { result ≡ named_rows (string_bytes name) tables }
    {
        NamedTables { name, tables }
    }

    pub(crate) fn name(&self) -> &str
        ensures name { result.now ≡ self.now.name }
        ensures lawful { is_name self.now.name ≡ true }
    {
        self.name.as_str()
    }

    pub(crate) fn tables(&self) -> &Tables
        ensures tables { result.now ≡ self.now.rows }
        ensures lawful { IsLawfulSwitch self.now.rows }
    {
        &self.tables
    }

    pub(crate) fn set_buffer(&mut self, buffer: u64)
        requires { IsWithin least_frame greatest_buffer buffer }
        ensures { self.new ≡ named_rows self.old.name (with_buffer buffer self.old.rows) }
    {
        self.tables.set_buffer(buffer);
    }

    /// Changes the times of the link at a place.
    pub(crate) fn set_times(&mut self, index: usize, times: Times)
        requires within { index < length self.old.rows.links }
        requires lawful { (l : LinkRow) → slice_get self.old.rows.links index ≡ Some l →
            IsLinkAmong self.old.rows.own (length self.old.rows.systems) (with_times times l) }
        ensures { self.new ≡ named_rows self.old.name (with_link_at index times self.old.rows) }
    {
        self.tables.set_times(index, times);
    }

    pub(crate) fn into_tables(self) -> Tables
        ensures tables { result ≡ self.rows }
        ensures lawful { IsLawfulSwitch result }
    {
        let Self { name, tables } = self;
        tables
    }
}
