// Laws about what the traits say.
ghost use Rattle.dm_store.specs.Files.{ListsOnce};

/// A listing of a store that tells its files has each name once.
pub fn lists_once()
    ensures { ListsOnce }
{}
