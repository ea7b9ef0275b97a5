// The values that document 01 marks with a star, proved of the definitions: specs/Starred.antt. Bands
// from bytes to bytes: specs/Faces.antt. Step counts of whole surfaces: specs/WholeSurfaces.antt. What
// is meant by definitions of other crates: specs/Meanings.antt. No function.
#![tactic(auto)]
