// Files whose calls are watched.
use disk_model::DeviceFile;
use std::io;

/// Who watches the calls of a file. The thread that makes a call tells of it, before it goes on.
pub trait Watch {
    /// A write or a sync begins.
    fn begins(&self);

    /// The write or sync that began has come back.
    fn ends(&self);

    /// A write or a sync failed, for this reason.
    fn failed(&self, error: io::Error);

    /// So many bytes were read.
    fn has_read(&self, count: usize);

    /// So many bytes were written.
    fn has_written(&self, count: usize);

    /// A sync was done.
    fn has_synced(&self);
}

/// A file whose calls are watched, by one who needs no hold of the disk that it is.
#[derive(Drop)]
pub struct Watched<'a, F, W> {
    file: F,
    watch: &'a W,
}

impl<'a, F, W: Watch> Watched<'a, F, W> {
    /// The file, whose calls are told to `watch` from now on.
    pub fn new(file: F, watch: &'a W) -> Self {
        Self { file, watch }
    }

    // Tells of a write or a sync that has come back, and where it failed why.
    fn told(&self, done: io::Result<()>) -> io::Result<()> {
        self.watch.ends();
        if let Err(error) = done {
            self.watch.failed(error);
        }
        done
    }

    // Tells of a sync that has come back, and that it was done, or why not.
    fn told_synced(&self, done: io::Result<()>) -> io::Result<()> {
        self.told(done)?;
        self.watch.has_synced();
        Ok(())
    }
}

impl<F: DeviceFile, W: Watch> DeviceFile for Watched<'_, F, W> {
    fn len(&self) -> io::Result<u64> {
        self.file.len()
    }

    fn read_at(&mut self, at: u64, out: &mut [u8]) -> io::Result<()> {
        self.file.read_at(at, out)?;
        self.watch.has_read(out.len());
        Ok(())
    }

    fn write_at(&mut self, at: u64, bytes: &[u8]) -> io::Result<()> {
        self.watch.begins();
        let done = self.file.write_at(at, bytes);
        self.told(done)?;
        self.watch.has_written(bytes.len());
        Ok(())
    }

    fn sync(&mut self) -> io::Result<()> {
        self.watch.begins();
        let done = self.file.sync();
        self.told_synced(done)
    }

    fn sync_all(&mut self) -> io::Result<()> {
        self.watch.begins();
        let done = self.file.sync_all();
        self.told_synced(done)
    }
}
