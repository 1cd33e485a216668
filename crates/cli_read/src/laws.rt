//! Laws of the definitions, each carried by the contract of a function that does nothing.
ghost use Rattle.cli_read.specs.Laws.{TextsSayOneList, WrittenTextsSayTheirLayers};

/// A text says at most one list of layers.
pub fn texts_say_one_list()
    ensures { TextsSayOneList }
{}

/// The text that is written of layers says these layers, where their heights ascend and each outline has three vertices
/// at least, all within reach.
pub fn written_texts_say_their_layers()
    ensures { WrittenTextsSayTheirLayers }
{}
