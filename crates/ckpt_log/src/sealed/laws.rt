// Laws of images of version 3, stated by functions that do nothing.
ghost use Rattle.ckpt_log.specs.sealed.Directory.{DirectoriesAreReadBack};

/// A read of a directory gives the entries that were written there, or fails only if the device fails. The function
/// does nothing: its contract is the law.
pub fn sealed_directories_are_read_back()
    ensures { DirectoriesAreReadBack }
{}
