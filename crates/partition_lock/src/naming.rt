use std::marker::Brand;

/// Which table of traces it is, and of how many sites and partitions of each. Each call of a program picks it.
pub trait Naming {
    ghost use Rattle.std.specs.Prelude.{ℕ};
    ghost use Rattle.atomic_table.specs.Seated.{TableId};

    ghost table: { TableId };

    ghost sites: { ℕ };

    ghost parts: { ℕ };
}

impl Naming for Brand {
    ghost use Rattle.partition_lock.specs.Passes.{no_table};

    ghost table = { no_table };

    ghost sites = { 0 };

    ghost parts = { 0 };
}
