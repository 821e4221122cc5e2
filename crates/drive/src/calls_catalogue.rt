// The calls about a catalogue; lines as in `calls`. But where one is added to it the catalogue stands for the schema.
use crate::calls;
use crate::requests::Request;
use codes::path_of;
use desk::catalogues;
use telling::Line;

// Added to a copy, as a setting is set in one. The line has the used bytes after the add, and none where the lent bytes are no catalogue.
pub fn add(r: Request, out: &mut [u8], line: &mut Line) {
    if let Some(copy) = calls::copied(r.second, out) {
        let code = match r.table {
            None => catalogues::loaf_catalogue_add(copy, r.schema),
            Some(t) => catalogues::loaf_catalogue_add_by(copy, r.schema, t),
        };
        let end = shelf::judge(copy, shelf::MOST).unwrap_or(0).min(copy.len());
        telling::numbered(line, code, &copy[..end]);
    }
}

// The field `room` is the number.
pub fn check(r: Request, line: &mut Line) {
    let code = catalogues::loaf_catalogue_check(r.schema, r.room, r.second);
    telling::verdict(line, code);
}

pub fn read(r: Request, line: &mut Line) {
    let answer = catalogue::read(r.schema, r.room, r.second, path_of(r.steps));
    telling::answer(line, answer);
}

pub fn set(r: Request, out: &mut [u8], line: &mut Line) {
    if let Some(copy) = calls::copied(r.second, out) {
        let code = catalogues::loaf_catalogue_set(
            r.schema, r.room, copy, r.steps, r.kind, r.value, r.third,
        );
        telling::bytes(line, code, copy);
    }
}

// The field `value` is the number, since `room` counts the bytes of the output.
pub fn write(r: Request, out: &mut [u8], line: &mut Line) {
    out.fill(calls::BYTE);
    let code = catalogues::loaf_catalogue_write(r.schema, r.value as usize, r.second, out);
    telling::output(line, code, out);
}

pub fn list(r: Request, out: &mut [u8], line: &mut Line) {
    out.fill(calls::BYTE);
    let code = catalogues::loaf_catalogue_list(r.schema, r.value as usize, r.second, out);
    telling::output(line, code, out);
}
