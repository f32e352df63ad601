// The files of the list, one after the other: each stands as its length in four bytes, the highest first, and its bytes. For `main`.
use rooms::Tables;
use rooms::reading::read_full;
use std::io;
use std::io::Read;

// The next file of the list, unless the list ends before it or within it, or the file is too long for the room.
fn next<'a>(list: &mut impl Read, room: &'a mut [u8]) -> io::Result<Option<&'a [u8]>> {
    let mut head = [0; 4];
    if read_full(list, &mut head)? < 4 {
        return Ok(None);
    }
    let length = u32::from_be_bytes(head) as usize;
    if length > room.len() {
        return Ok(None);
    }
    let file = &mut room[..length];
    if read_full(list, file)? < length {
        return Ok(None);
    }
    Ok(Some(file))
}

// The tables are not cleared between files: what stood in them must not show. A proved loop has to end, so its turns are counted.
pub fn replay_all(rt: &impl Print, list: &mut impl Read) -> io::Result<()> {
    let mut t = Tables::new();
    let mut room = rooms::zeros::<u8, 65537>(0);
    let mut lines = rooms::zeros::<u8, 65536>(0);
    for _ in 0..u64::MAX {
        let Some(file) = next(list, &mut room)? else {
            break;
        };
        let ran = replay::run(&mut t.book, &mut t.keys, &mut t.texts, file, &mut lines);
        rt.write_all(&lines[..ran.wrote])?;
    }
    Ok(())
}
