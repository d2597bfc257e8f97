// The two byte areas that a tray is lent. They may have any length and content.
#[derive(Drop)]
pub struct Areas {
    pub stages: Vec<u8>,
    pub moves: Vec<u8>,
}
